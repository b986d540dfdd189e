//! What is read from JSON: how a text is a tree, how a tree is a rule, or a list of rules, or the first refusal, and
//! what is written as JSON.
#![tactic(auto)]

mod examples;
mod tree;
mod values;

pub use examples::{
    allow_all_lists_frames, fields_are_read, fields_come_before_filters, head_comes_in_order,
    header_changes_have_forms, lists_come_in_order, old_names_stand_alone, redirects_have_forms,
    second_of_an_id_is_named, session_rules_name_tabs, tests_are_read, tests_come_in_order,
};
pub use tree::read_tree;
pub use values::{as_kind, as_method, as_tab};
