// Where a byte stands in a text, and where the first star of a pattern does.
ghost use Rattle.std.specs.Prelude.{◌≡◌, ◌==◌, ◌||◌, ◌≤◌, length, position};
ghost use Rattle.std.specs.List.{position_or_len};
ghost use Rattle.match_patterns.specs.Stars.{IsSplit};

// Where the byte first stands, or the text's length.
pub(crate) fn place_of(byte: u8, text: &[u8]) -> usize
    ensures within { result ≤ length text.now }
    ensures first { result ≡ position_or_len (λ b. b == byte) text.now }
{
    position_of(byte, text).unwrap_or(text.len())
}

fn position_of(byte: u8, text: &[u8]) -> Option<usize>
    ensures { result ≡ position (λ b. b == byte) text.now }
{
    text.iter().position(|b| *b == byte)
}

// Where a `/` or a `?` first stands, or the text's length.
pub(crate) fn place_of_path(text: &[u8]) -> usize
    ensures within { result ≤ length text.now }
    ensures first { result ≡ position_or_len (λ b. b == 47 || b == 63) text.now }
{
    position_of_path(text).unwrap_or(text.len())
}

fn position_of_path(text: &[u8]) -> Option<usize>
    ensures { result ≡ position (λ b. b == 47 || b == 63) text.now }
{
    text.iter().position(|b| *b == b'/' || *b == b'?')
}

// What stands before the first star of a pattern, and behind it if there is one.
pub(crate) fn split_at_star(pattern: &[u8]) -> (&[u8], Option<&[u8]>)
    ensures { IsSplit pattern.now result.0.now result.1 }
{
    let place = place_of(b'*', pattern);
    if place < pattern.len() {
        (&pattern[..place], Some(&pattern[place + 1..]))
    } else {
        (pattern, None)
    }
}
