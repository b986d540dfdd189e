/// Whose headers a change is about.
#[derive(Clone, Copy, Debug, PartialEq, Eq)]
pub enum Direction {
    /// Those of the request.
    Request,
    /// Those of its response.
    Response,
}
