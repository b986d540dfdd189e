//! Examples of the definitions. Each is stated in `specs/Examples.antt` and computed from the definitions
//! by the prover; the functions do nothing.

ghost use Rattle.session_spec.specs.Examples.{NoRulesDecideNothing, MainFrameIsLeftAlone};
ghost use Rattle.session_spec.specs.Examples.{AllowPrevailsAtEqualPriority};
ghost use Rattle.session_spec.specs.Examples.{GreaterPriorityPrevails, SmallerIdPrevails};
ghost use Rattle.session_spec.specs.Examples.{BlankLinesCount, CrAloneIsNoBlankLine};
ghost use Rattle.session_spec.specs.Examples.{BrokenLinesAreBad, MatchTakesNoUpdates};
ghost use Rattle.session_spec.specs.Examples.{UpdatesAreJudgedInTurn, SyncEndsARound};
ghost use Rattle.session_spec.specs.Examples.{NullIsPresent, FractionIsNoId};
ghost use Rattle.session_spec.specs.Examples.{LastValueOfAKeyCounts, SecondOfEqualIdsIsAtFault};
ghost use Rattle.session_spec.specs.Examples.{FirstRuleAtFaultIsNamed};
ghost use Rattle.session_spec.specs.Examples.{FilterIsRefusedWithItsReason, NestingHasALimit};
ghost use Rattle.session_spec.specs.Examples.{MatchTakesTwoFileNames, CheckTakesAKind};
ghost use Rattle.session_spec.specs.Examples.{CompileTakesAFile, ServeTakesOptions, ServeIsStrict};
ghost use Rattle.session_spec.specs.Examples.{RefusedFilesSayWhy, RefusedInstallsSayWhy};
ghost use Rattle.session_spec.specs.Examples.{UnsupportedLinesSayWhy, CompiledListsAreReported};
ghost use Rattle.session_spec.specs.Examples.{TwoFilesAreServed, RulesAreCounted};
ghost use Rattle.session_spec.specs.Examples.{UsageIsForBadWords};

/// Without rules a request goes on.
#[tactic(auto, using(crate::proofs::Computed::no_rules_decide_nothing))]
pub fn no_rules_decide_nothing()
    ensures { NoRulesDecideNothing }
{}

/// A rule that lists no types holds on a script, and not on a `main_frame`.
#[tactic(auto, using(crate::proofs::Computed::main_frame_is_left_alone))]
pub fn main_frame_is_left_alone()
    ensures { MainFrameIsLeftAlone }
{}

/// At equal priority `allow` prevails over `block`, whatever the ids.
#[tactic(auto, using(crate::proofs::Computed::allow_prevails_at_equal_priority))]
pub fn allow_prevails_at_equal_priority()
    ensures { AllowPrevailsAtEqualPriority }
{}

/// A greater priority prevails whatever the action; an absent one is 1.
#[tactic(auto, using(crate::proofs::Computed::greater_priority_prevails))]
pub fn greater_priority_prevails()
    ensures { GreaterPriorityPrevails }
{}

/// Of rules that are equal otherwise the one of the smaller id prevails, wherever it stands.
#[tactic(auto, using(crate::proofs::Computed::smaller_id_prevails))]
pub fn smaller_id_prevails()
    ensures { SmallerIdPrevails }
{}

/// A blank line prints nothing and is counted; a CR before the LF is dropped; a last line needs no LF.
#[tactic(auto, using(crate::proofs::Computed::blank_lines_count))]
pub fn blank_lines_count()
    ensures { BlankLinesCount }
{}

/// One CR is dropped, and only before an LF: a CR that is left makes a line that is not blank.
#[tactic(auto, using(crate::proofs::Computed::cr_alone_is_no_blank_line))]
pub fn cr_alone_is_no_blank_line()
    ensures { CrAloneIsNoBlankLine }
{}

/// No JSON, a host or a scheme that is none, a type that is not known: each is a bad line, and the next is served.
#[tactic(auto, using(crate::proofs::Computed::broken_lines_are_bad))]
pub fn broken_lines_are_bad()
    ensures { BrokenLinesAreBad }
{}

/// `match` has no updates: what reads as one is a bad line, and what does not says its own fault.
#[tactic(auto, using(crate::proofs::Computed::match_takes_no_updates))]
pub fn match_takes_no_updates()
    ensures { MatchTakesNoUpdates }
{}

/// An update that is accepted decides what comes after it, and a refused one changes nothing.
#[tactic(auto, using(crate::proofs::Computed::updates_are_judged_in_turn))]
pub fn updates_are_judged_in_turn()
    ensures { UpdatesAreJudgedInTurn }
{}

/// A `sync` ends its round, and what stands after it is a round of its own.
#[tactic(auto, using(crate::proofs::Computed::sync_ends_a_round))]
pub fn sync_ends_a_round()
    ensures { SyncEndsARound }
{}

/// A priority that is null is not an absent one.
#[tactic(auto, using(crate::proofs::Computed::null_is_present))]
pub fn null_is_present()
    ensures { NullIsPresent }
{}

/// `1.0` is no whole number.
#[tactic(auto, using(crate::proofs::Computed::fraction_is_no_id))]
pub fn fraction_is_no_id()
    ensures { FractionIsNoId }
{}

/// Of a repeated key the last value counts.
#[tactic(auto, using(crate::proofs::Computed::last_value_of_a_key_counts))]
pub fn last_value_of_a_key_counts()
    ensures { LastValueOfAKeyCounts }
{}

/// The second rule of an id is at fault, by its id before its other fields.
#[tactic(auto, using(crate::proofs::Computed::second_of_equal_ids_is_at_fault))]
pub fn second_of_equal_ids_is_at_fault()
    ensures { SecondOfEqualIdsIsAtFault }
{}

/// The first rule at fault is named, by its first fault.
#[tactic(auto, using(crate::proofs::Computed::first_rule_at_fault_is_named))]
pub fn first_rule_at_fault_is_named()
    ensures { FirstRuleAtFaultIsNamed }
{}

/// 127 nestings are read, and 128 are no JSON.
#[tactic(auto, using(crate::proofs::Computed::nesting_has_a_limit))]
pub fn nesting_has_a_limit()
    ensures { NestingHasALimit }
{}

/// `match` takes two names of files, and a name does not begin with `-`.
#[tactic(auto, using(crate::proofs::Computed::match_takes_two_file_names))]
pub fn match_takes_two_file_names()
    ensures { MatchTakesTwoFileNames }
{}

/// `compile` takes the name of a file.
#[tactic(auto, using(crate::proofs::Computed::compile_takes_a_file))]
pub fn compile_takes_a_file()
    ensures { CompileTakesAFile }
{}

/// `serve` takes options in any order and then a script; what is installed keeps its order.
#[tactic(auto, using(crate::proofs::Computed::serve_takes_options))]
pub fn serve_takes_options()
    ensures { ServeTakesOptions }
{}

/// An option behind the script, a second suffix list, a name with a dot, an option without a value: none is a
/// command.
#[tactic(auto, using(crate::proofs::Computed::serve_is_strict))]
pub fn serve_is_strict()
    ensures { ServeIsStrict }
{}

/// A file of an extension, a suffix list and a filter list each say why they are refused.
#[tactic(auto, using(crate::proofs::Computed::refused_files_say_why))]
pub fn refused_files_say_why()
    ensures { RefusedFilesSayWhy }
{}

/// An extension that is not installed says why, and the count that is too great.
#[tactic(auto, using(crate::proofs::Computed::refused_installs_say_why))]
pub fn refused_installs_say_why()
    ensures { RefusedInstallsSayWhy }
{}

/// A line of a list that gives nothing says why, and which option is at fault.
#[tactic(auto, using(crate::proofs::Computed::unsupported_lines_say_why))]
pub fn unsupported_lines_say_why()
    ensures { UnsupportedLinesSayWhy }
{}

/// Of a compiled list the lines that give nothing stand first, then the count of the rules, then the rules.
#[tactic(auto, using(crate::proofs::Computed::compiled_lists_are_reported))]
pub fn compiled_lists_are_reported()
    ensures { CompiledListsAreReported }
{}

/// The two files are served, with the one line that says `none`.
#[tactic(auto, using(crate::proofs::Computed::two_files_are_served))]
pub fn two_files_are_served()
    ensures { TwoFilesAreServed }
{}

/// A command without its files ends with Usage, and one with them never does.
#[tactic(auto, using(crate::proofs::Computed::usage_is_for_bad_words))]
pub fn usage_is_for_bad_words()
    ensures { UsageIsForBadWords }
{}

/// A urlFilter that is none is refused with its reason.
#[tactic(auto, using(crate::proofs::Computed::filter_is_refused_with_its_reason))]
pub fn filter_is_refused_with_its_reason()
    ensures { FilterIsRefusedWithItsReason }
{}

/// `check` takes a kind and the name of a file.
#[tactic(auto, using(crate::proofs::Computed::check_takes_a_kind))]
pub fn check_takes_a_kind()
    ensures { CheckTakesAKind }
{}

/// A file without rules is counted.
#[tactic(auto, using(crate::proofs::Computed::rules_are_counted))]
pub fn rules_are_counted()
    ensures { RulesAreCounted }
{}
