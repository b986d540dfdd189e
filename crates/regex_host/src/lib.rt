//! Patterns of rules: what finds their matches in a text, and what a match puts into a new URL.
//!
//! What a pattern matches stands in `dnr_spec`, `specs/Patterns.antt`, and what a substitution stands for in
//! `specs/Substitution.antt`. Whoever asks for a match does it through a `RegexHost`, which may fail and
//! counts its faults.
#![tactic(auto)]

mod automaton;
mod built;
mod groups;
mod host;
mod list_host;
mod pack_host;
mod prefilter;
mod sent;
mod substitution;

pub use dnr_base::{NoMemory, Span};
pub use dnr_spec::SubstitutionRefusal;
pub use host::{HostRefusal, RegexHost};
pub use list_host::ListHost;
pub use pack_host::PackHost;
pub use sent::pack_hosts_are_sent;
pub use substitution::Substitution;
