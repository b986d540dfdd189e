ghost use Rattle.std.specs.Prelude.{◌≡◌, IfOk};

use crate::{Copied, NoMemory, Text};
use std::alloc::Global;

/// One value of a header. A header with several values stands once for each.
#[derive(Debug, Drop)]
pub struct Header {
    /// The header's name, in lower case.
    pub name: Text,
    /// The value.
    pub value: Text,
}

impl Header {
    /// An equal header.
    ///
    /// `NoMemory`: no memory is left for its texts.
    pub fn copy(&self, alloc: Global) -> Result<Header, NoMemory>
        ensures { IfOk result (λ copy. copy ≡ self.now) }
    {
        Ok(Header {
            name: self.name.copy(alloc)?,
            value: self.value.copy(alloc)?,
        })
    }
}

impl Copied for Header {
    fn copied(&self, alloc: Global) -> Result<Header, NoMemory> {
        self.copy(alloc)
    }
}
