ghost use Rattle.std.specs.Prelude.{◌≡◌, IfOk};

use crate::{Copied, NoMemory, Text, Transform};
use std::alloc::Global;

/// Where a rule sends a request: Chrome's reference of declarativeNetRequest, `Redirect`, of which a rule
/// gives one field.
#[derive(Debug, Drop)]
pub enum Redirect {
    /// A path inside the rule's own extension, which begins with `/`.
    ExtensionPath(Text),
    /// Changes to the parts of the request's URL.
    Transform(Transform),
    /// A whole URL.
    Url(Text),
    /// What stands in the place of the part of the URL that the rule's `regexFilter` matches. `\0` is that
    /// part, `\1` to `\9` are the groups.
    RegexSubstitution(Text),
}

impl Redirect {
    /// An equal redirect.
    ///
    /// `NoMemory`: no memory is left for one of its texts.
    pub fn copy(&self, alloc: Global) -> Result<Redirect, NoMemory>
        ensures { IfOk result (λ copy. copy ≡ self.now) }
    {
        match self {
            Redirect::ExtensionPath(path) => Ok(Redirect::ExtensionPath(path.copy(alloc)?)),
            Redirect::Transform(transform) => Ok(Redirect::Transform(transform.copy(alloc)?)),
            Redirect::Url(url) => Ok(Redirect::Url(url.copy(alloc)?)),
            Redirect::RegexSubstitution(text) => Ok(Redirect::RegexSubstitution(text.copy(alloc)?)),
        }
    }
}

impl Copied for Redirect {
    fn copied(&self, alloc: Global) -> Result<Redirect, NoMemory> {
        self.copy(alloc)
    }
}
