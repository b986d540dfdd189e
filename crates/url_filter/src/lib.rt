//! A `urlFilter`: read once, then matched against the text of a URL.
//!
//! What a filter means stands in `dnr_spec`, `specs/UrlFilter.antt`, in the terms of Chrome's
//! reference: `*` stands for any number of bytes, `^` for a separator or the end of the text, `|` at
//! either end for that end of the text, and `||` at the beginning for the start of a domain.
#![tactic(auto)]

mod anchor;
mod pattern;
mod places;
mod sought;
mod walks;

pub use dnr_spec::{NoMemory, PatternRefusal, Span};
pub use pattern::Pattern;
