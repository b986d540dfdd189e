// Numbers among the words.
ghost use Rattle.std.specs.Prelude.{◌≡◌, ◌≤◌, IfSome};
ghost use Rattle.std.specs.List.{list_all};
ghost use Rattle.dnr_spec.specs.UrlFilter.{is_digit};
ghost use Rattle.session_spec.specs.Words as spec;

// The number that the word writes, up to this one.
pub(crate) fn number_up_to(most: u64, word: &str) -> Option<u64>
    ensures value { result ≡ spec.number_up_to most word.now }
    ensures bound { IfSome result (λ number. number ≤ most) }
{
    if !is_number(word) {
        return None;
    }
    let Ok(number) = word.parse::<u64>() else {
        return None;
    };
    if number <= most { Some(number) } else { None }
}

// The same of a small number.
pub(crate) fn small_number_up_to(most: u32, word: &str) -> Option<u32>
    ensures value { result ≡ spec.number_up_to most word.now }
    ensures bound { IfSome result (λ number. number ≤ most) }
{
    let number = number_up_to(u64::from(most), word)?;
    Some(number as u32)
}

// Decimal digits, of which the first is `0` in `0` alone.
fn is_number(word: &str) -> bool
    ensures { result ≡ spec.is_number word.now }
{
    let digits = word.as_bytes();
    !digits.is_empty() && are_digits(digits) && (digits.len() == 1 || digits[0] != b'0')
}

fn are_digits(bytes: &[u8]) -> bool
    ensures { result ≡ list_all is_digit bytes.now }
{
    bytes.iter().all(|byte| b'0' <= *byte && *byte <= b'9')
}
