//! What a run promises: the words of the command line, what a refused file prints, what each line of a script
//! prints, and `Out`, which says what a command may write.
#![tactic(auto)]

mod examples;
mod follow_examples;
mod line_examples;
mod reply;
mod sample_examples;
mod tally;
mod tool_examples;

pub use examples::{
    allow_prevails_at_equal_priority, blank_lines_count, broken_lines_are_bad, check_takes_a_kind,
    compile_takes_a_file, compiled_lists_are_reported, cr_alone_is_no_blank_line,
    filter_is_refused_with_its_reason, first_rule_at_fault_is_named, fraction_is_no_id,
    greater_priority_prevails, last_value_of_a_key_counts, main_frame_is_left_alone,
    match_takes_no_updates, match_takes_two_file_names, nesting_has_a_limit,
    no_rules_decide_nothing, null_is_present, refused_files_say_why, refused_installs_say_why,
    rules_are_counted, second_of_equal_ids_is_at_fault, serve_is_strict, serve_takes_options,
    smaller_id_prevails, sync_ends_a_round, two_files_are_served, unsupported_lines_say_why,
    updates_are_judged_in_turn, usage_is_for_bad_words,
};
pub use follow_examples::{
    follow_explains_nothing, follow_takes_two_file_names, hops_of_faults_are_named,
    traces_are_listed,
};
pub use line_examples::{
    bad_lines_say_why, counts_are_said, explanations_are_listed, faults_name_their_rule,
    refused_batches_say_which, refused_rules_say_where, refused_updates_say_why,
    samples_have_limits, workers_are_few,
};
pub use reply::Reply;
pub use sample_examples::{
    requests_are_dealt_out, sample_takes_four_numbers, samples_are_summed_up,
    words_are_those_of_pcg,
};
pub use tally::Tally;
pub use tool_examples::{
    hidden_selectors_are_listed, pruned_rules_are_listed, tools_take_their_words,
};
