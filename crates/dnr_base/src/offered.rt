ghost use Rattle.std.specs.Prelude.{◌≡◌, IfOk};

use crate::{Copied, Direction, NoMemory, Operation, Text};
use std::alloc::Global;

/// A header change that a rule offers, which may or may not take effect.
#[derive(Debug, Drop)]
pub struct Offered {
    /// The place of the rule's extension in the order of installation.
    pub age: u32,
    /// Whose header it is.
    pub direction: Direction,
    /// The header's name, in lower case.
    pub name: Text,
    /// What it does to the header.
    pub operation: Operation,
}

impl Offered {
    /// An equal offer.
    ///
    /// `NoMemory`: no memory is left for its name.
    pub fn copy(&self, alloc: Global) -> Result<Offered, NoMemory>
        ensures { IfOk result (λ copy. copy ≡ self.now) }
    {
        Ok(Offered {
            age: self.age,
            direction: self.direction,
            name: self.name.copy(alloc)?,
            operation: self.operation,
        })
    }
}

impl Copied for Offered {
    fn copied(&self, alloc: Global) -> Result<Offered, NoMemory> {
        self.copy(alloc)
    }
}
