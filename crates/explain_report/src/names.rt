// How outcomes, actions, operations and refusals are called in a line.
ghost use Rattle.std.specs.Prelude.{◌≡◌};
ghost use Rattle.session_spec.specs.Output as spec;

use dnr_base::{Direction, Operation, Verb};
use dnr_spec::ViewRefusal;
use follow_spec::End;
use rule_spec::Outcome;

pub(crate) fn outcome_name(outcome: Outcome) -> &'static str
    ensures { result.now ≡ spec.outcome_name outcome }
{
    match outcome {
        Outcome::None => "none",
        Outcome::Block => "block",
        Outcome::Redirect => "redirect",
        Outcome::Upgrade => "upgrade",
        Outcome::Allow => "allow",
    }
}

pub(crate) fn end_name(end: End) -> &'static str
    ensures { result.now ≡ spec.end_name end }
{
    match end {
        End::Settled => "settled",
        End::Unreadable => "unreadable",
        End::Repeated => "repeated",
        End::Bound => "bound",
    }
}

pub(crate) fn verb_name(verb: Verb) -> &'static str
    ensures { result.now ≡ spec.verb_name verb }
{
    match verb {
        Verb::Allow => "allow",
        Verb::AllowAllRequests => "allowAllRequests",
        Verb::Block => "block",
        Verb::UpgradeScheme => "upgradeScheme",
        Verb::Redirect => "redirect",
    }
}

pub(crate) fn direction_name(direction: Direction) -> &'static str
    ensures { result.now ≡ spec.direction_name direction }
{
    match direction {
        Direction::Request => "request",
        Direction::Response => "response",
    }
}

pub(crate) fn operation_name(operation: Operation) -> &'static str
    ensures { result.now ≡ spec.operation_name operation }
{
    match operation {
        Operation::Append => "append",
        Operation::Set => "set",
        Operation::Remove => "remove",
    }
}

pub(crate) fn view_why(refusal: ViewRefusal) -> &'static str
    ensures { result.now ≡ spec.view_why refusal }
{
    match refusal {
        ViewRefusal::UrlTooLong => "url-too-long",
        ViewRefusal::BadUrl => "bad-url",
        ViewRefusal::BadScheme => "bad-scheme",
        ViewRefusal::BadHost => "bad-host",
        ViewRefusal::NoMemory => "no-memory",
    }
}
