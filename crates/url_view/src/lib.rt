//! Reads a URL's text into the view that rules see.
//!
//! The URL is the one that the URL Standard (4.4, the basic URL parser) reads in the text without a
//! base.
//! Which view that is, and why a text has none, stands in `dnr_spec`, `specs/UrlView.antt`.
//! A URL that is in serialized form already, as a browser sends nearly all, is not parsed: its parts
//! are found where they stand.
#![tactic(auto)]

mod bytes;
mod hosts;
mod parsing;
mod places;

pub use dnr_base::View;
pub use dnr_spec::ViewRefusal;
pub use parsing::parse;
pub use places::{Plain, find_plain};
