ghost use Rattle.std.specs.Prelude.{◌≡◌};
ghost use Rattle.session_serve.specs.Round.{asks_of};

/// What a line means for its round.
#[derive(Clone, Copy, Debug, PartialEq, Eq)]
pub enum LineKind {
    /// It ends its round.
    Sync,
    /// It asks for an answer to a request.
    Asks,
    /// Neither.
    Other,
}

impl LineKind {
    /// How many answers to requests it asks for.
    pub fn asked(self) -> u32
        ensures { result ≡ asks_of self }
    {
        match self {
            LineKind::Asks => 1,
            LineKind::Sync | LineKind::Other => 0,
        }
    }
}
