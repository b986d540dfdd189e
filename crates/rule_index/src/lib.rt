//! An index of rules by their keys: which rules share a key with a part of a request.
//!
//! What keys are stands in `index_spec`. There is a table for each kind of key, and a list of the rules that have none.
//! A look-up takes no memory and touches no rule.
#![tactic(auto)]

mod drafts;
mod filter_words;
mod index;
mod keys;
mod laws;
mod list_draft;
mod list_index;
mod listed_part;
mod needs;
mod pieces;
mod token;
mod walk;

pub use drafts::IndexDraft;
pub use index::Index;
pub use index_spec::Key;
pub use keys::{key_of, keys_of};
pub use laws::{
    candidates_are_counted, few_rules_are_found, few_rules_are_near, near_are_counted,
    needs_are_shown, rules_that_hold_are_found, rules_that_hold_are_near,
    rules_that_share_are_found,
};
pub use list_draft::ListDraft;
pub use list_index::{LendsRule, ListIndex};
pub use listed_part::ListedPart;
pub use needs::shown_by;
pub use walk::Walk;
