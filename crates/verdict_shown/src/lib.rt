//! A verdict by its parts, as numbers and as places in bytes, in place of a line.
//!
//! What the parts show stands in `specs/Shown.antt`.
#![tactic(auto)]

mod showing;
mod shown;
mod writing;

pub use showing::show;
pub use shown::{ShowRefusal, ShownChange, ShownRule, ShownText, ShownVerdict};
