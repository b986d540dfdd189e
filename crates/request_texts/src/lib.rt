//! What the texts of a request read as, wherever they stand: its URLs, who asks, and its headers.
//!
//! The definitions stand in `line_spec`, `specs/RequestLine.antt`.
#![tactic(auto)]

mod header;
mod url;

pub use header::header_of;
pub use url::{asking_host, view_at};
