//! What decides a request: the extensions that are installed, and the scan of all their rules in force.
//!
//! What the scan answers stands in `rule_spec`, `specs/Scan.antt`, over the state of `specs/State.antt` there.
#![tactic(auto)]

mod access;
mod blame;
mod block;
mod conclusion;
mod decision;
mod explanation;
mod first;
mod generation;
mod hits;
mod kept;
mod live;
mod long_frames;
mod offer;
mod offers;
mod operations;
mod plain;
mod plain_rules;
mod refusal;
mod scan;
mod segments;
mod sorted;
mod targets;
mod uncounted;

pub use dnr_verdict::{Explanation, NamedOp, Verdict, Why, WhyRule};
pub use first::FirstRefusal;
pub use generation::Generation;
pub use refusal::DecideRefusal;
pub use rule_spec::Outcome;
pub use ruleset_store::{BatchRefusal, Extension, InstalledExtension, Refusal, RuleSet, Update};
