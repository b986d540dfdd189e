//! What a line of a script reads as: the command that it asks for, or its first field at fault.
#![tactic(auto)]

mod command_name;
mod command_path;
mod line_fault;
mod request_examples;
mod update_examples;
mod update_fault;
mod update_field;

pub use command_name::{CommandName, UpdateName};
pub use command_path::CommandPath;
pub use line_fault::LineFault;
pub use request_examples::{
    blank_lines_are_commands, commands_have_names, first_field_at_fault_is_named,
    first_frame_at_fault_counts, frames_name_their_url, headers_are_pairs, initiators_are_hosts,
    last_of_a_key_counts, tabs_have_a_range, urls_are_refused_by_name,
};
pub use update_examples::{
    batches_are_read_in_turn, batches_have_a_limit, extensions_are_installed,
    first_update_field_at_fault_is_named, hosts_fail_at_patterns, ids_to_remove_are_rule_ids,
    ids_to_switch_are_whole, refused_rules_have_places, refused_rules_have_rulesets,
    updates_are_read,
};
pub use update_fault::UpdateFault;
pub use update_field::UpdateField;
