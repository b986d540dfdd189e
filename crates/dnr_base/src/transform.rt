ghost use Rattle.std.specs.Prelude.{◌≡◌, IfOk};

use crate::{Copied, NoMemory, QueryTransform, Scheme, Text};
use std::alloc::Global;

/// New parts of a URL: Chrome's reference of declarativeNetRequest, `URLTransform`. A part that is absent
/// stays, and an empty text clears it.
#[derive(Debug, Drop)]
pub struct Transform {
    /// The new scheme.
    pub scheme: Option<Scheme>,
    /// The new host.
    pub host: Option<Text>,
    /// The new port, in decimal digits.
    pub port: Option<Text>,
    /// The new path. One that is not empty gets a leading `/` where it has none.
    pub path: Option<Text>,
    /// The new query, with its `?`.
    pub query: Option<Text>,
    /// Changes to the pieces of the query, where `query` is absent.
    pub query_transform: Option<QueryTransform>,
    /// The new fragment, with its `#`.
    pub fragment: Option<Text>,
    /// The new user name, not encoded.
    pub username: Option<Text>,
    /// The new password, not encoded.
    pub password: Option<Text>,
}

impl Transform {
    /// An equal transform.
    ///
    /// `NoMemory`: no memory is left for one of its parts.
    pub fn copy(&self, alloc: Global) -> Result<Transform, NoMemory>
        ensures { IfOk result (λ copy. copy ≡ self.now) }
    {
        Ok(Transform {
            scheme: self.scheme,
            host: Copied::copied(&self.host, alloc)?,
            port: Copied::copied(&self.port, alloc)?,
            path: Copied::copied(&self.path, alloc)?,
            query: Copied::copied(&self.query, alloc)?,
            query_transform: Copied::copied(&self.query_transform, alloc)?,
            fragment: Copied::copied(&self.fragment, alloc)?,
            username: Copied::copied(&self.username, alloc)?,
            password: Copied::copied(&self.password, alloc)?,
        })
    }
}

impl Copied for Transform {
    fn copied(&self, alloc: Global) -> Result<Transform, NoMemory> {
        self.copy(alloc)
    }
}
