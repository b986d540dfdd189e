//! What the lines of a filter list hide on a page, by Adblock Plus, "How to write filters", and the words that
//! these definitions share with the program.
//!
//! The definitions stand in `specs/`: `HidingLine` for what a line says of elements and why it may not be used, `Hidden`
//! for the selectors that a page hides, `Report` for the lines that are not used, `Code` for how reasons are written.
#![tactic(auto)]

mod examples;
mod hide_reason;
mod hide_reported;

pub use examples::{
    both_domains_are_compared_in_lower_case, domains_stand_between_commas,
    exceptions_keep_where_they_apply, hosts_of_pages, leftmost_separator_splits,
    long_lines_come_first, longest_domain_decides, other_lines_hide_nothing, pages_of_a_small_list,
    reasons_come_in_order, report_of_hiding_lines, selectors_ascend_and_stand_once,
};
pub use hide_reason::HideReason;
pub use hide_reported::HideReported;
