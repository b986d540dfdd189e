ghost use Rattle.std.specs.Prelude.{◌≡◌, IfOk};

use crate::{Copied, Method, NoMemory, Text, View};
use std::alloc::Global;

/// A frame in which a request is made: its document was asked for itself.
#[derive(Debug, Drop)]
pub struct Frame {
    /// The URL of its document. `None` where that has no URL which rules see.
    pub view: Option<View>,
    /// The host of the page that asked for the document, if any did.
    pub initiator: Option<Text>,
    /// The method by which the document was asked for.
    pub method: Method,
}

impl Frame {
    /// An equal frame.
    ///
    /// `NoMemory`: no memory is left for its view or its initiator.
    pub fn copy(&self, alloc: Global) -> Result<Frame, NoMemory>
        ensures { IfOk result (λ copy. copy ≡ self.now) }
    {
        Ok(Frame {
            view: Copied::copied(&self.view, alloc)?,
            initiator: Copied::copied(&self.initiator, alloc)?,
            method: self.method,
        })
    }
}

impl Copied for Frame {
    fn copied(&self, alloc: Global) -> Result<Frame, NoMemory> {
        self.copy(alloc)
    }
}
