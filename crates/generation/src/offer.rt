ghost use Rattle.std.specs.Prelude.{◌≡◌, IfOk};
ghost use Rattle.rule_spec.specs.Scan as spec;

use dnr_base::{Direction, NoMemory, Offered, RuleName, Text};
use dnr_verdict::NamedOp;
use header_actions::HeaderOp;
use std::alloc::Global;
use std::marker::Model;

// A header change that a rule offers.
#[derive(Drop)]
pub(crate) struct Offer<'a> {
    pub age: u32,
    pub direction: Direction,
    pub op: &'a HeaderOp,
    pub extension: &'a str,
    pub set: &'a str,
    pub id: u32,
}

impl<'a> Model for Offer<'a> {
    ghost use Rattle.rule_spec.specs.Scan as spec;

    ghost Value = { spec.Offer };

    ghost view = { λ o. record { age = o.age; direction = o.direction; op = o.op.now; rule = record { ext = o.extension.now; set = o.set.now; id = o.id } } };
}

impl<'a> Offer<'a> {
    // What the choice between offers looks at.
    pub(crate) fn offered(&self, alloc: Global) -> Result<Offered, NoMemory>
        ensures { IfOk result (λ offered. offered ≡ spec.offered self.now) }
    {
        Ok(Offered {
            age: self.age,
            direction: self.direction,
            name: Text::build(String::from_str(alloc, self.op.name())?),
            operation: self.op.operation(),
        })
    }

    // The change with its rule's name.
    pub(crate) fn named(&self, alloc: Global) -> Result<NamedOp, NoMemory>
        ensures { IfOk result (λ op. op ≡ spec.named_op self.now) }
    {
        Ok(NamedOp {
            direction: self.direction,
            op: self.op.copy(alloc)?,
            rule: RuleName {
                ext: Text::build(String::from_str(alloc, self.extension)?),
                set: Text::build(String::from_str(alloc, self.set)?),
                id: self.id,
            },
        })
    }
}
