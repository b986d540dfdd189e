/// How a trace ends.
#[derive(Clone, Copy, Debug, PartialEq, Eq)]
pub enum End {
    /// The last hop is sent nowhere else.
    Settled,
    /// It is sent to what is no URL that rules see.
    Unreadable,
    /// It is sent to the URL of a hop.
    Repeated,
    /// It is sent on, and is the last that is followed.
    Bound,
}
