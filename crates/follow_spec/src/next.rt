use crate::End;
use dnr_base::View;

/// What follows a hop.
#[derive(Debug, Drop)]
pub enum Next {
    /// The trace ends with it.
    Ends(End),
    /// A hop to this URL.
    Follows(View),
}
