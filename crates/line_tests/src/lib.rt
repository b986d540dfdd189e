//! Tests of `script_read` over its public calls. A crate with tests is proved twice, so they stand here and not beside
//! what they call.
#![tactic(auto)]

#[cfg(test)]
mod ahead;
#[cfg(test)]
mod steps;
