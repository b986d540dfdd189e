//! What an extension may touch, from JSON: a list of match patterns.
#![tactic(auto)]

mod patterns;

pub use patterns::patterns_in;
