//! Laws of sessions: what follows from what a session may say and how it may end. Each function does nothing; its contract
//! is the law, stated in `specs/Laws.antt`.
#![tactic(auto)]

ghost use Rattle.session_laws.specs.Laws.{TurnsAreARound, RefusalsChangeNothing};
ghost use Rattle.session_laws.specs.Laws.{NumbersNeverFall, SessionsComplete};
ghost use Rattle.session_laws.specs.Laws.{NineHostsAreEnough};

/// Lines that are answered in turn are a round, whatever the number of seats.
#[tactic(auto, using(crate::proofs::Turns::turns_are_round))]
pub fn turns_are_a_round()
    ensures { TurnsAreARound }
{}

/// An update or a batch that is refused leaves the state.
#[tactic(auto, using(crate::proofs::Laws::refusals_change_nothing))]
pub fn refusals_change_nothing()
    ensures { RefusalsChangeNothing }
{}

/// The numbers of a seat never fall, over all rounds that were served.
#[tactic(auto, using(crate::proofs::Laws::numbers_never_fall))]
pub fn numbers_never_fall()
    ensures { NumbersNeverFall }
{}

/// A session whose files are there, within the limits and not refused, and that meets no fault, is served to its end,
/// unless memory runs out.
#[tactic(auto, using(crate::proofs::Laws::sessions_complete))]
pub fn sessions_complete()
    ensures { SessionsComplete }
{}

/// Nine hosts are enough for any command.
#[tactic(auto, using(crate::proofs::Hosts::nine_are_enough))]
pub fn nine_hosts_are_enough()
    ensures { NineHostsAreEnough }
{}
