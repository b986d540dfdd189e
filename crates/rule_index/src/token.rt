ghost use Rattle.std.specs.Prelude.{◌≡◌, option_map};
ghost use Rattle.std.specs.Option.{option_copied};
ghost use Rattle.dnr_spec.specs.Domains.{lower_case};
ghost use Rattle.index_spec.specs.Words as spec;
ghost use Rattle.rule_index.specs.Index as index;

use crate::filter_words::words_in;
use dnr_rules::Condition;

pub(crate) fn is_firm(c: u8) -> bool
    ensures { result ≡ spec.is_firm c }
{
    !c.is_ascii_alphanumeric() && c != b'*'
}

// Whether most URLs have the word, in whatever case.
pub(crate) fn is_common(word: &[u8]) -> bool
    ensures { result ≡ spec.is_common (lower_case word.now) }
{
    word.eq_ignore_ascii_case(b"http")
        || word.eq_ignore_ascii_case(b"https")
        || word.eq_ignore_ascii_case(b"www")
        || word.eq_ignore_ascii_case(b"com")
}

/// The token of a condition that has one, in the case in which it stands there.
pub(crate) fn token_in(condition: &Condition) -> Option<&[u8]>
    ensures { option_map lower_case (option_copied result) ≡ index.token_in condition.now }
{
    words_in(condition).token
}
