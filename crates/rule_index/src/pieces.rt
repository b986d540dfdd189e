ghost use Rattle.std.specs.Prelude.{◌≡◌};
ghost use Rattle.dnr_spec.specs.UrlFilter.{filter_of};
ghost use Rattle.index_spec.specs.Words.{is_anchored};

/// What a filter's text says: what stands between its anchors, and which of them are there.
#[derive(Debug, Drop)]
pub(crate) struct Pieces<'a> {
    pub body: &'a [u8],
    pub anchored: bool,
    pub ends: bool,
}

/// Reads the anchors of a filter.
pub(crate) fn pieces_of(text: &[u8]) -> Pieces<'_>
    ensures body { result.body.now ≡ (filter_of text.now).body }
    ensures anchored { result.anchored ≡ is_anchored (filter_of text.now).anchor }
    ensures ends { result.ends ≡ (filter_of text.now).ends }
{
    let width = if text.starts_with(b"||") {
        2
    } else if text.starts_with(b"|") {
        1
    } else {
        0
    };
    let rest = &text[width..];
    let (body, ends) = match rest.split_last() {
        Some((b'|', body)) => (body, true),
        _ => (rest, false),
    };
    Pieces {
        body,
        anchored: width > 0,
        ends,
    }
}
