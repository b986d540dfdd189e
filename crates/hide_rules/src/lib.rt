//! Which elements the pages of a host hide by the lines of a filter list, by Adblock Plus, "How to write filters",
//! "Element hiding".
//!
//! What a line says, what a page hides and which lines are reported stands in `hide_spec`.
#![tactic(auto)]

mod applies;
mod candidates;
mod ends;
mod entries;
mod hide_list;
mod index;
mod line;
mod list;
mod listings;
mod page;
mod selectors;
mod separator;
mod text;

pub use dnr_base::{NoMemory, Text};
pub use hide_list::HideList;
pub use hide_spec::{HideReason, HideReported};
pub use list::HideRefusal;
