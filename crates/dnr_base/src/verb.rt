/// What the rules that decide a request do to it: the types of Chrome's `RuleAction` but
/// `modifyHeaders`, which decides nothing. They stand in the order in which one goes before the other
/// inside an extension, at equal priority.
#[derive(Clone, Copy, Debug, PartialEq, Eq)]
pub enum Verb {
    /// Lets it through.
    Allow,
    /// Lets a frame's request through, and all that comes from the frame.
    AllowAllRequests,
    /// Blocks it.
    Block,
    /// Sends it on to the same URL by `https`.
    UpgradeScheme,
    /// Sends it on to another URL.
    Redirect,
}
