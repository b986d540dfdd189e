ghost use Rattle.std.specs.Prelude.{◌≡◌};
ghost use Rattle.std.specs.List.{list_all, list_any};
ghost use Rattle.std.specs.Str.{str_eq_ignore_ascii_case};
ghost use Rattle.http_header.specs.Token.{is_token_byte};
ghost use Rattle.dnr_spec.specs.Headers as spec;

use http_header::is_token_char;

// The most bytes of a name.
const MAX_NAME: usize = 256;

// The most bytes of a value.
const MAX_VALUE: usize = 8192;

// Whether each byte may stand in a token.
fn has_token_bytes(bytes: &[u8]) -> bool
    ensures { result ≡ list_all is_token_byte bytes.now }
{
    bytes.iter().all(|byte| is_token_char(*byte))
}

/// Whether a text is a field name (RFC 9110, section 5.1), in any case, of at most 256 bytes.
pub fn is_name(name: &str) -> bool
    ensures { result ≡ spec.is_name name.now }
{
    let bytes = name.as_bytes();
    !bytes.is_empty() && bytes.len() <= MAX_NAME && has_token_bytes(bytes)
}

// Whether a byte may stand in no value.
fn has_end_of_value(bytes: &[u8]) -> bool
    ensures { result ≡ list_any spec.ends_value bytes.now }
{
    bytes
        .iter()
        .any(|byte| *byte == b'\r' || *byte == b'\n' || *byte == 0)
}

// Whether a header may have the value.
pub(crate) fn is_value(value: &str) -> bool
    ensures { result ≡ spec.is_value value.now }
{
    value.len() <= MAX_VALUE && !has_end_of_value(value.as_bytes())
}

// Whether the name is one of these, in any case.
fn is_among(name: &str, listed: &[&str]) -> bool
    ensures { result ≡ list_any (λ other. str_eq_ignore_ascii_case name.now other.now) listed.now }
{
    listed.iter().any(|other| name.eq_ignore_ascii_case(other))
}

// Whether a value may be appended to the request header, which is named in any case.
#[rattlefmt::skip]
pub(crate) fn is_appendable(name: &str) -> bool
    ensures { result ≡ spec.is_appendable name.now }
{
    is_among(name, &[
        "accept", "accept-encoding", "accept-language", "access-control-request-headers", "cache-control",
        "connection", "content-language", "cookie", "forwarded", "if-match", "if-none-match", "keep-alive",
        "range", "te", "trailer", "transfer-encoding", "upgrade", "user-agent", "via", "want-digest",
        "x-forwarded-for",
    ])
}
