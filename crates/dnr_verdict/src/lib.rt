//! What becomes of a request, and why, as the layers above the rules hand it on.
//!
//! A clause sees the verdict of `rule_spec`, `specs/Scan.antt`, and the explanation of `explain_spec`.
#![tactic(auto)]

mod explanation;
mod named_op;
mod verdict;

pub use explanation::{Explanation, Why, WhyRule};
pub use named_op::NamedOp;
pub use verdict::Verdict;
