ghost use Rattle.std.specs.Prelude.{◌≡◌, IfOk};

use crate::{Copied, NoMemory, Text};
use std::alloc::Global;

/// A rule by where it stands.
#[derive(Debug, Drop)]
pub struct RuleName {
    /// The name of its extension.
    pub ext: Text,
    /// The id of its ruleset in the extension.
    pub set: Text,
    /// Its id in the ruleset.
    pub id: u32,
}

impl RuleName {
    /// An equal name.
    ///
    /// `NoMemory`: no memory is left for its texts.
    pub fn copy(&self, alloc: Global) -> Result<RuleName, NoMemory>
        ensures { IfOk result (λ copy. copy ≡ self.now) }
    {
        Ok(RuleName {
            ext: self.ext.copy(alloc)?,
            set: self.set.copy(alloc)?,
            id: self.id,
        })
    }
}

impl Copied for RuleName {
    fn copied(&self, alloc: Global) -> Result<RuleName, NoMemory> {
        self.copy(alloc)
    }
}
