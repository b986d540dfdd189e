ghost use Rattle.std.specs.Prelude.{◌≡◌, IfOk};

use crate::{Copied, Items, NoMemory, QueryPair, Text};
use std::alloc::Global;

/// Changes to the pieces of a query: Chrome's reference of declarativeNetRequest, `QueryTransform`.
#[derive(Debug, Drop)]
pub struct QueryTransform {
    /// The keys whose pieces are removed, decoded: `removeParams`.
    pub remove: Items<Text>,
    /// The pairs that replace pieces or are appended: `addOrReplaceParams`.
    pub add: Items<QueryPair>,
}

impl QueryTransform {
    /// An equal list of changes.
    ///
    /// `NoMemory`: no memory is left for one of its lists or texts.
    pub fn copy(&self, alloc: Global) -> Result<QueryTransform, NoMemory>
        ensures { IfOk result (λ copy. copy ≡ self.now) }
    {
        Ok(QueryTransform {
            remove: self.remove.copy(alloc)?,
            add: self.add.copy(alloc)?,
        })
    }
}

impl Copied for QueryTransform {
    fn copied(&self, alloc: Global) -> Result<QueryTransform, NoMemory> {
        self.copy(alloc)
    }
}
