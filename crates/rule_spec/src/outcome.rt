/// What becomes of a request.
#[derive(Clone, Copy, Debug, PartialEq, Eq)]
pub enum Outcome {
    /// No rule decides it, so it goes on.
    None,
    /// It is cancelled.
    Block,
    /// It is sent to another URL.
    Redirect,
    /// It is sent to the same URL under `https`.
    Upgrade,
    /// It goes on, whatever weaker rules say.
    Allow,
}
