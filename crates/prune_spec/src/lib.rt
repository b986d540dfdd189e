//! Which static rules another rule makes needless, and what a list of removals must show.
//!
//! The definitions stand in `specs/`: `Shadows` for when a rule makes another needless, `Pruned` for
//! what a list can do without.
#![tactic(auto)]

mod check_refusal;
mod examples;
mod prune_refusal;
mod shadow;

pub use check_refusal::CheckRefusal;
pub use examples::{
    each_refusal_of_a_proof, first_of_two_equal_rules_is_kept, keeper_of_a_chain_stays,
    strongest_of_three_is_kept,
};
pub use prune_refusal::PruneRefusal;
pub use shadow::Shadow;
