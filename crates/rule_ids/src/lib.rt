//! Ids of rules that are looked up, and what is counted of rules, so that an update asks for no pass over them.
#![tactic(auto)]

mod counts;
mod known;
mod known_rule;
mod off_ids;
mod once;

pub use counts::Counts;
pub use dnr_base::NoMemory;
pub use known::{KnownDraft, KnownIds};
pub use known_rule::KnownRule;
pub use off_ids::OffIds;
pub use once::distinct;
