ghost use Rattle.std.specs.Prelude.{◌≡◌};
ghost use Rattle.dnr_spec.specs.UrlFilter as spec;
ghost use Rattle.url_filter.specs.Anchor.{meaning};

/// Where a filter may begin to fit.
#[derive(Clone, Copy, Debug, PartialEq, Eq)]
pub enum Anchor {
    Anywhere,
    Begin,
    Domain,
}

/// The anchor that a text begins with.
pub fn anchor_of(text: &[u8]) -> Anchor
    ensures { meaning result ≡ spec.anchor_of text.now }
{
    if text.starts_with(b"||") {
        Anchor::Domain
    } else if text.starts_with(b"|") {
        Anchor::Begin
    } else {
        Anchor::Anywhere
    }
}

impl Anchor {
    ghost use Rattle.dnr_spec.specs.UrlFilter.{anchor_len};
    ghost use Rattle.url_filter.specs.Anchor.{meaning as meaning_of};

    /// How many bytes the anchor takes.
    pub fn width(self) -> usize
        ensures { result ≡ anchor_len (meaning_of self) }
    {
        match self {
            Anchor::Anywhere => 0,
            Anchor::Begin => 1,
            Anchor::Domain => 2,
        }
    }
}
