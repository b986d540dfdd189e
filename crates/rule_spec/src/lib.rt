//! What rules promise, in the terms of Chrome's reference of declarativeNetRequest: what a rule is, when it
//! holds, how it reaches a request, and which of all rules in force decides it.
//!
//! The definitions stand in `specs/`, one file a subject, in the order in which `specs/Lib.antt` names them.
#![tactic(auto)]

mod examples;
mod outcome;
mod placed_refusal;
mod reach;
mod rule_kind;
mod rule_path;
mod rule_refusal;

pub use examples::{
    allow_outdoes_weaker_header_rules, appends_keep_out_the_others, block_needs_no_access,
    block_prevails_across_extensions, excluded_value_is_none, frame_without_url_exempts_nothing,
    headers_are_carried, page_is_exempt, redirect_needs_access,
    redirect_without_target_decides_nothing, set_keeps_out_other_extensions, value_is_asked_for,
};
pub use outcome::Outcome;
pub use placed_refusal::PlacedRefusal;
pub use reach::Reach;
pub use rule_kind::RuleKind;
pub use rule_path::RulePath;
pub use rule_refusal::{HeaderCause, RuleRefusal};
