use dnr_base::{Direction, RuleName};
use header_actions::HeaderOp;
use std::marker::Model;

/// A header change that took effect, with the rule that asked for it. A clause sees the one of `rule_spec`.
#[derive(Debug, Drop)]
pub struct NamedOp {
    /// Whose header it changes.
    pub direction: Direction,
    /// The change.
    pub op: HeaderOp,
    /// The rule that asked for it.
    pub rule: RuleName,
}

impl Model for NamedOp {
    ghost use Rattle.rule_spec.specs.Scan as spec;

    ghost Value = { spec.NamedOp };

    ghost view = { λ n. record { direction = n.direction; op = n.op; rule = n.rule } };
}
