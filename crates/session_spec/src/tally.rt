/// What the requests of a session were answered: how many there were, and how many had each verdict.
#[derive(Clone, Copy, Debug, PartialEq, Eq)]
pub struct Tally {
    /// All of them.
    pub requests: u32,
    /// Those on which no rule decides.
    pub none: u32,
    /// Those that are cancelled.
    pub block: u32,
    /// Those that a rule lets go on.
    pub allow: u32,
    /// Those that are sent to another URL.
    pub redirect: u32,
    /// Those that are sent to the same URL under `https`.
    pub upgrade: u32,
}
