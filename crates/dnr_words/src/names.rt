// Names of files, of extensions, of hosts and of kinds of rules.
ghost use Rattle.std.specs.Prelude.{◌≡◌};
ghost use Rattle.std.specs.List.{list_all};
ghost use Rattle.hide_spec.specs.Hidden as pages;
ghost use Rattle.session_spec.specs.Words as spec;

use rule_spec::RuleKind;

/// Whether a word can be the name of a file: it is not empty, and does not begin as an option does.
pub fn is_file_name(word: &str) -> bool
    ensures { result ≡ spec.is_file_name word.now }
{
    !word.is_empty() && word.as_bytes()[0] != b'-'
}

/// Whether a word can be the name of an extension: 1 to 64 of `a-z`, `0-9`, `-` and `_`.
pub fn is_extension_name(word: &str) -> bool
    ensures { result ≡ spec.is_extension_name word.now }
{
    !word.is_empty() && word.len() <= 64 && are_name_bytes(word.as_bytes())
}

fn are_name_bytes(bytes: &[u8]) -> bool
    ensures { result ≡ list_all spec.is_name_byte bytes.now }
{
    bytes.iter().all(|byte| is_name_byte(*byte))
}

fn is_name_byte(byte: u8) -> bool
    ensures { result ≡ spec.is_name_byte byte }
{
    matches!(byte, b'a'..=b'z' | b'0'..=b'9' | b'-' | b'_')
}

// The host of a page: labels of `a-z`, `0-9`, `-` and `_`, none of them empty.
pub(crate) fn is_page_host(word: &str) -> bool
    ensures { result ≡ pages.is_page_host word.now }
{
    let mut begun = false;
    for byte in word.as_bytes() {
        if *byte == b'.' {
            if !begun {
                return false;
            }
            begun = false;
        } else {
            if !is_host_byte(*byte) {
                return false;
            }
            begun = true;
        }
    }
    begun
}

fn is_host_byte(byte: u8) -> bool
    ensures { result ≡ pages.is_host_byte byte }
{
    matches!(byte, b'a'..=b'z' | b'0'..=b'9' | b'-' | b'_')
}

pub(crate) fn kind_named(word: &str) -> Option<RuleKind>
    ensures { result ≡ spec.kind_named word.now }
{
    match word {
        "static" => Some(RuleKind::Static),
        "dynamic" => Some(RuleKind::Dynamic),
        "session" => Some(RuleKind::Session),
        _ => None,
    }
}
