//! Leaves out rules that another rule makes needless, on a proof that names that rule.
//!
//! When a rule makes another needless stands in `prune_spec`, `specs/Shadows.antt`, and what a proof
//! must show in `specs/Pruned.antt` there.
#![tactic(auto)]

mod checks;
mod digests;
mod filters;
mod finds;
mod lists;
mod outdone;
mod shadowing;

pub use checks::check;
pub use finds::find;
pub use prune_spec::{CheckRefusal, PruneRefusal, Shadow};
pub use shadowing::shadows;
