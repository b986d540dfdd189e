ghost use Rattle.std.specs.Prelude.{◌≡◌};
ghost use Rattle.dnr_spec.specs.UrlFilter as spec;
ghost use Rattle.url_filter.specs.Stops as stops;
ghost use Rattle.url_filter.specs.Told.{WalkTells};

/// Where a walk along a pattern ended.
pub enum Stop<'a> {
    /// At a star, with this left of the pattern behind it and this of the text.
    Star(&'a [u8], &'a [u8]),
    /// The pattern fits.
    Fits,
    /// The pattern does not fit.
    Fails,
}

// Whether `^` stands for this byte.
fn is_separator(byte: u8) -> bool
    ensures { result ≡ spec.is_separator byte }
{
    !(byte.is_ascii_alphanumeric() || matches!(byte, b'_' | b'-' | b'.' | b'%'))
}

/// Whether two bytes are one, in both cases of a letter where the filter folds.
pub fn is_same(fold: bool, byte: u8, wanted: u8) -> bool
    ensures { result ≡ spec.is_same fold byte wanted }
{
    if fold {
        byte.eq_ignore_ascii_case(&wanted)
    } else {
        byte == wanted
    }
}

// Whether a byte of a pattern that is no star takes this byte of a text.
fn takes(fold: bool, wanted: u8, byte: u8) -> bool
    ensures { result ≡ stops.takes fold wanted byte }
{
    if wanted == b'^' {
        is_separator(byte)
    } else {
        is_same(fold, byte, wanted)
    }
}

/// Walks along the pattern, from the beginning of the text, up to the pattern's first star.
pub fn walk<'a>(ends: bool, fold: bool, pattern: &'a [u8], text: &'a [u8]) -> Stop<'a>
    ensures { WalkTells ends fold pattern.now text.now result }
{
    let mut rest = text;
    for (i, &wanted) in pattern.iter().enumerate() {
        if wanted == b'*' {
            return Stop::Star(&pattern[i + 1..], rest);
        }
        match rest.split_first() {
            Some((&byte, later)) if takes(fold, wanted, byte) => rest = later,
            None if wanted == b'^' => {}
            _ => return Stop::Fails,
        }
    }
    if ends && !rest.is_empty() {
        Stop::Fails
    } else {
        Stop::Fits
    }
}
