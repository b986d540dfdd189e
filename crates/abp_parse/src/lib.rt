//! The lines of a filter list, by Adblock Plus, "How to write filters": which are comments, which are
//! filters and what these ask for, and why the others are no filters that this project supports.
//!
//! What a line means stands in `list_spec`, `specs/LineKind.antt`.
#![tactic(auto)]

mod asked;
mod entries;
mod filter;
mod hiding;
mod line;
mod options;
mod place;
mod text;

pub use dnr_base::{Items, KindSet, NoMemory, Text};
pub use entries::{cut_tilde, has_conflict};
pub use line::{FilterLine, FilterPattern, Line, parse_line};
pub use list_spec::{DomainEntry, Reason};
pub use text::{cut_at, trimmed};
pub use url_filter::Pattern;
