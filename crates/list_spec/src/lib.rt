//! What the lines of a filter list mean, by Adblock Plus, "How to write filters", and the words that these
//! definitions share with the program.
//!
//! The definitions stand in `specs/`: `Pieces` and `Entries` for the parts of a line, `Options` for what the
//! options of a filter ask for, `LineKind` for the kind of a line. The types here are plain data.
#![tactic(auto)]

mod domain_entry;
mod examples;
mod option_name;
mod reason;

pub use domain_entry::DomainEntry;
pub use examples::{
    cuts_stand_at_the_leftmost_dollar, domains_are_told_apart, faults_come_in_order,
    kinds_of_lines, types_are_folded,
};
pub use option_name::OptionName;
pub use reason::Reason;
