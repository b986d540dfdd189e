/// A rule that is left out, and the rule that makes it needless. Both are named by their ids.
#[derive(Clone, Copy, Debug, PartialEq, Eq)]
pub struct Shadow {
    /// The id of the rule that is left out.
    pub removed: u32,
    /// The id of the rule that is kept and makes it needless.
    pub by: u32,
}
