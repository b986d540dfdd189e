ghost use Rattle.std.specs.Prelude.{◌≡◌, IfOk};

use crate::{Copied, NoMemory, Text};
use std::alloc::Global;

/// A key and its value: Chrome's reference of declarativeNetRequest, `QueryKeyValue`.
#[derive(Debug, Drop)]
pub struct QueryPair {
    /// The key, not encoded.
    pub key: Text,
    /// The value, not encoded.
    pub value: Text,
    /// Whether the pair is left out where it replaces no piece.
    pub replace_only: bool,
}

impl QueryPair {
    /// An equal pair.
    ///
    /// `NoMemory`: no memory is left for its texts.
    pub fn copy(&self, alloc: Global) -> Result<QueryPair, NoMemory>
        ensures { IfOk result (λ copy. copy ≡ self.now) }
    {
        Ok(QueryPair {
            key: self.key.copy(alloc)?,
            value: self.value.copy(alloc)?,
            replace_only: self.replace_only,
        })
    }
}

impl Copied for QueryPair {
    fn copied(&self, alloc: Global) -> Result<QueryPair, NoMemory> {
        self.copy(alloc)
    }
}
