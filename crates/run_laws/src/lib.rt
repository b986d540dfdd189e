//! Laws of runs: what whoever reads the output of a run may rely on, as it follows from `Out`. Each function does nothing; its
//! contract is the law, stated in `specs/Laws.antt` in the same order.
//!
//! A session is read as a history (`specs/History.antt`): one list of all updates and batches that were accepted, of which each
//! line speaks by the count that it prints. `specs/Wrote.antt` says which rounds that history has with each status,
//! `specs/Finished.antt` what may yet be written behind it, `specs/Printed.antt` what one line says, and `specs/Listed.antt` what
//! lines say where a filter list is all that is installed.
#![tactic(auto)]

ghost use Rattle.run_laws.specs.Laws.{CommandsComplete, SessionsBeginAtZero};
ghost use Rattle.run_laws.specs.Laws.{ServedRoundsAreAHistory, SessionsAreHistories};
ghost use Rattle.run_laws.specs.Laws.{RoundsInTurnAreServed, SessionsMayAnswerInTurn};
ghost use Rattle.run_laws.specs.Laws.{ServedRoundsGoOn, SessionsCanBeFinished};
ghost use Rattle.run_laws.specs.Laws.{WhatStandsIsABeginning, RunsAreInTurn};
ghost use Rattle.run_laws.specs.Laws.{VerdictsAreScans, RefusalsNameTheirCause, FaultsAreCounted};
ghost use Rattle.run_laws.specs.Laws.{RequestsHaveViews, ListsBlockWhatTheySay};
ghost use Rattle.run_laws.specs.Laws.{ServedListsBlockWhatTheySay};
ghost use Rattle.run_laws.specs.Runs.{WorkedRuns};

/// A command that reads what is there, within the limits and in its form, and that meets no fault, ends with Done, unless
/// memory runs out.
#[tactic(auto, using(crate::proofs::Ready::commands_complete))]
pub fn commands_complete()
    ensures { CommandsComplete }
{}

/// Nothing is counted before the first line of a script.
#[tactic(auto, using(crate::proofs::Laws::sessions_begin_at_zero))]
pub fn sessions_begin_at_zero()
    ensures { SessionsBeginAtZero }
{}

/// Rounds that were served are a history: each line says what it must by one list of all that was accepted.
pub fn served_rounds_are_a_history()
    ensures { ServedRoundsAreAHistory }
{}

/// Whatever the status, what a session wrote is such a history: with Done of its whole script.
#[tactic(auto, using(crate::proofs::Wrote::sessions_are_histories))]
pub fn sessions_are_histories()
    ensures { SessionsAreHistories }
{}

/// Rounds may be served in turn: each line is answered on the state that the earlier ones leave.
pub fn rounds_in_turn_are_served()
    ensures { RoundsInTurnAreServed }
{}

/// Of a script that is there something may always be written, once all before it was read and installed.
pub fn sessions_may_answer_in_turn()
    ensures { SessionsMayAnswerInTurn }
{}

/// However rounds were served, any rounds may be served behind them.
pub fn served_rounds_go_on()
    ensures { ServedRoundsGoOn }
{}

/// Whatever the status, what a session wrote is nothing, a beginning of a refusal, or a beginning of what it may write of its
/// whole script.
pub fn sessions_can_be_finished()
    ensures { SessionsCanBeFinished }
{}

/// Whatever the command and the status, nothing stands written, or a beginning of what may be written whole.
pub fn what_stands_is_a_beginning()
    ensures { WhatStandsIsABeginning }
{}

/// What the definitions compute of a whole run of `match` or `follow` is an example of what may be written.
pub fn runs_are_in_turn()
    ensures { RunsAreInTurn }
{}

/// Each worked example of a whole run is one of what may be written.
pub fn runs_are_worked()
    ensures { WorkedRuns }
{}

/// A verdict, or an explanation, is the scan after exactly as many accepted updates and batches as it prints.
pub fn verdicts_are_scans()
    ensures { VerdictsAreScans }
{}

/// An update or a batch that is refused names its first cause and changes nothing.
pub fn refusals_name_their_cause()
    ensures { RefusalsNameTheirCause }
{}

/// A line says that a host failed only where the count of faults of that host rose.
pub fn faults_are_counted()
    ensures { FaultsAreCounted }
{}

/// A request that a line asks about has the URLs of views.
pub fn requests_have_views()
    ensures { RequestsHaveViews }
{}

/// Where a filter list is all that is installed, a transcript blocks exactly what the supported lines of the list say.
pub fn lists_block_what_they_say()
    ensures { ListsBlockWhatTheySay }
{}

/// So does what a session wrote in which a filter list is all that is installed, whatever its status.
pub fn served_lists_block_what_they_say()
    ensures { ServedListsBlockWhatTheySay }
{}
