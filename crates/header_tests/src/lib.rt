//! Tests of response headers: read once, then asked whether they hold on the headers of a response.
//!
//! Which texts are patterns of values, what they fit and when a test holds stands in `dnr_spec`,
//! `specs/HeaderTests.antt`.
#![tactic(auto)]

mod header_test;
mod value_pattern;
mod words;

pub use dnr_spec::{NoMemory, ValueRefusal};
pub use header_test::{HeaderTest, some_holds};
pub use value_pattern::ValuePattern;
