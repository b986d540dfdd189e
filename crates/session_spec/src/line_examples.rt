//! Examples of words and of the lines of output. Each is stated in `specs/LineExamples.antt` and computed from the
//! definitions by the prover; the functions do nothing.

ghost use Rattle.session_spec.specs.LineExamples.{WorkersAreFew, SamplesHaveLimits};
ghost use Rattle.session_spec.specs.LineExamples.{CountsAreSaid, RefusedUpdatesSayWhy};
ghost use Rattle.session_spec.specs.LineExamples.{RefusedRulesSayWhere, RefusedBatchesSayWhich};
ghost use Rattle.session_spec.specs.LineExamples.{BadLinesSayWhy, FaultsNameTheirRule};
ghost use Rattle.session_spec.specs.LineExamples.{ExplanationsAreListed};

/// One to eight answer requests, and one where no number is named.
#[tactic(auto, using(crate::proofs::LinesComputed::workers_are_few))]
pub fn workers_are_few()
    ensures { WorkersAreFew }
{}

/// A sample has four numbers, each up to its limit.
#[tactic(auto, using(crate::proofs::LinesComputed::samples_have_limits))]
pub fn samples_have_limits()
    ensures { SamplesHaveLimits }
{}

/// An update that is accepted, and a `sync`, say how many were accepted.
#[tactic(auto, using(crate::proofs::LinesComputed::counts_are_said))]
pub fn counts_are_said()
    ensures { CountsAreSaid }
{}

/// A refused update names what it asks for in vain, or the count that is too great.
#[tactic(auto, using(crate::proofs::LinesComputed::refused_updates_say_why))]
pub fn refused_updates_say_why()
    ensures { RefusedUpdatesSayWhy }
{}

/// A refused rule has its place and its id, and the ruleset where several are read.
#[tactic(auto, using(crate::proofs::LinesComputed::refused_rules_say_where))]
pub fn refused_rules_say_where()
    ensures { RefusedRulesSayWhere }
{}

/// A batch has the place of its update at the end.
#[tactic(auto, using(crate::proofs::LinesComputed::refused_batches_say_which))]
pub fn refused_batches_say_which()
    ensures { RefusedBatchesSayWhich }
{}

/// A line that can't be read names its field, and why its text is no URL.
#[tactic(auto, using(crate::proofs::LinesComputed::bad_lines_say_why))]
pub fn bad_lines_say_why()
    ensures { BadLinesSayWhy }
{}

/// A fault of the pattern host names the rule at whose pattern it failed.
#[tactic(auto, using(crate::proofs::LinesComputed::faults_name_their_rule))]
pub fn faults_name_their_rule()
    ensures { FaultsNameTheirRule }
{}

/// An explanation is the verdict, and behind it what each extension says.
#[tactic(auto, using(crate::proofs::LinesComputed::explanations_are_listed))]
pub fn explanations_are_listed()
    ensures { ExplanationsAreListed }
{}
