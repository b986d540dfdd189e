use crate::Verb;

/// What an extension says of a request.
#[derive(Clone, Copy, Debug, PartialEq, Eq)]
pub struct Winner {
    /// What its rule does.
    pub action: Verb,
    /// The extension's place in the order of installation: the greater is the more recent.
    pub age: u32,
}
