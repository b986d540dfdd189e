/// How a rule reaches a request.
#[derive(Clone, Copy, Debug, PartialEq, Eq)]
pub enum Reach {
    /// Its condition holds on the request itself.
    Own,
    /// Its condition holds on the frame at this place, counted from 0 for the outermost, and on no frame before it.
    Frame(u32),
}
