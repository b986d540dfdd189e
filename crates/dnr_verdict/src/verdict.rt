use crate::NamedOp;
use dnr_base::{Header, Items, RuleName, Text};
use rule_spec::Outcome;
use std::marker::Model;

/// What becomes of a request: Chrome's reference of declarativeNetRequest, "Rule prioritization" and
/// "Header modification". A clause sees the verdict of `rule_spec`.
#[derive(Debug, Drop)]
pub struct Verdict {
    /// Whether it goes on, and where.
    pub outcome: Outcome,
    /// The rule that decides. `None`: no rule decides it.
    pub rule: Option<RuleName>,
    /// The URL that it is sent to, where it is redirected or upgraded.
    pub target: Option<Text>,
    /// The header changes that take effect, those of the request first.
    pub ops: Items<NamedOp>,
    /// The request's headers after the changes, where there are changes and it carries such a list.
    pub request_headers: Option<Items<Header>>,
    /// The response's headers after the changes, where there are changes and it carries such a list.
    pub response_headers: Option<Items<Header>>,
}

impl Model for Verdict {
    ghost use Rattle.rule_spec.specs.Scan as spec;

    ghost Value = { spec.Verdict };

    ghost view = { λ v. record { outcome = v.outcome; rule = v.rule; target = v.target; ops = v.ops; request_headers = v.request_headers; response_headers = v.response_headers } };
}
