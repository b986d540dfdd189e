// Which bytes the parts of a plain URL may have, and how long those parts are.
ghost use Rattle.std.specs.Prelude.{◌≡◌, ◌≤◌, ◌==◌, length, slice_index, true, false};
ghost use Rattle.std.specs.List.{prefix_len, list_all};
ghost use Rattle.url.specs.Input.{rsplit_once};
ghost use Rattle.dnr_base.specs.View as hosts;
ghost use Rattle.url_view.specs.Plain as spec;

// Which bits a byte has in the table below: it is one of a host's name,
const NAME: u8 = 1;
// one of a path that may follow a slash,
const FIRST: u8 = 2;
// one that a query keeps,
const QUERY: u8 = 4;
// and one that a fragment keeps.
const FRAGMENT: u8 = 8;

// A table, since each byte of each URL is looked up.
const CLASSES: [u8; 256] = [
    0, 0, 0, 0, 0, 0, 0, 0, 0, 0, 0, 0, 0, 0, 0, 0, 0, 0, 0, 0, 0, 0, 0, 0, 0, 0, 0, 0, 0, 0, 0, 0,
    0, 14, 0, 8, 14, 12, 14, 10, 14, 14, 14, 14, 14, 15, 13, 14, 15, 15, 15, 15, 15, 15, 15, 15,
    15, 15, 14, 14, 0, 14, 0, 12, 14, 14, 14, 14, 14, 14, 14, 14, 14, 14, 14, 14, 14, 14, 14, 14,
    14, 14, 14, 14, 14, 14, 14, 14, 14, 14, 14, 14, 12, 14, 12, 15, 4, 15, 15, 15, 15, 15, 15, 15,
    15, 15, 15, 15, 15, 15, 15, 15, 15, 15, 15, 15, 15, 15, 15, 15, 15, 15, 15, 12, 14, 12, 14, 0,
    0, 0, 0, 0, 0, 0, 0, 0, 0, 0, 0, 0, 0, 0, 0, 0, 0, 0, 0, 0, 0, 0, 0, 0, 0, 0, 0, 0, 0, 0, 0, 0,
    0, 0, 0, 0, 0, 0, 0, 0, 0, 0, 0, 0, 0, 0, 0, 0, 0, 0, 0, 0, 0, 0, 0, 0, 0, 0, 0, 0, 0, 0, 0, 0,
    0, 0, 0, 0, 0, 0, 0, 0, 0, 0, 0, 0, 0, 0, 0, 0, 0, 0, 0, 0, 0, 0, 0, 0, 0, 0, 0, 0, 0, 0, 0, 0,
    0, 0, 0, 0, 0, 0, 0, 0, 0, 0, 0, 0, 0, 0, 0, 0, 0, 0, 0, 0, 0, 0, 0, 0, 0, 0, 0, 0, 0, 0, 0, 0,
];

pub(crate) fn is_name_byte(byte: u8) -> bool
    ensures { result ≡ hosts.is_name_byte byte }
{
    CLASSES[byte as usize] & NAME != 0
}

// Whether a path may have the byte behind a slash.
fn is_first_byte(byte: u8) -> bool
    ensures { result ≡ spec.goes_on true byte }
{
    CLASSES[byte as usize] & FIRST != 0
}

fn is_query_byte(byte: u8) -> bool
    ensures { result ≡ spec.is_query_byte byte }
{
    CLASSES[byte as usize] & QUERY != 0
}

fn is_fragment_byte(byte: u8) -> bool
    ensures { result ≡ spec.is_fragment_byte byte }
{
    CLASSES[byte as usize] & FRAGMENT != 0
}

// How many bytes at the front are of a name.
pub(crate) fn name_len(bytes: &[u8]) -> usize
    ensures value { result ≡ prefix_len hosts.is_name_byte bytes.now }
    ensures within { result ≤ length bytes.now }
{
    bytes.iter().take_while(|&&byte| is_name_byte(byte)).count()
}

// What stands behind the last dot.
fn last_label(host: &[u8]) -> &[u8]
    ensures { result.now ≡ (rsplit_once 46 host.now).1 }
{
    match host.iter().rposition(|&byte| byte == b'.') {
        Some(place) => &host[place + 1..],
        None => host,
    }
}

// Whether the label behind the last dot begins with a letter, which no IPv4 address does.
pub(crate) fn is_named(host: &[u8]) -> bool
    ensures { result ≡ spec.is_named host.now }
{
    matches!(last_label(host), [b'a'..=b'z', ..])
}

pub(crate) fn begins_with_slash(bytes: &[u8]) -> bool
    ensures { result ≡ (slice_index bytes.now 0 == 47) }
{
    matches!(bytes, [b'/', ..])
}

// Whether a dot segment may begin with the byte, since `%2e` is a dot, too.
fn is_dot_byte(byte: u8) -> bool
    ensures { result ≡ spec.is_dot_byte byte }
{
    byte == b'.' || byte == b'%'
}

// Whether a path goes on with the byte behind the byte `before`.
fn goes_on(before: u8, byte: u8) -> bool
    ensures { result ≡ spec.goes_on (before == 47) byte }
{
    is_first_byte(byte) || (before != b'/' && is_dot_byte(byte))
}

// How many bytes at the front are a path without dot segments.
pub(crate) fn path_len(bytes: &[u8]) -> usize
    ensures value { result ≡ spec.path_len false bytes.now }
    ensures within { result ≤ length bytes.now }
{
    let mut before = 0;
    for (place, &byte) in bytes.iter().enumerate() {
        if !goes_on(before, byte) {
            return place;
        }
        before = byte;
    }
    bytes.len()
}

// How many bytes at the front are of a query.
fn query_bytes(bytes: &[u8]) -> usize
    ensures value { result ≡ prefix_len spec.is_query_byte bytes.now }
    ensures within { result ≤ length bytes.now }
{
    bytes
        .iter()
        .take_while(|&&byte| is_query_byte(byte))
        .count()
}

// How many bytes at the front are `?` and a query.
pub(crate) fn query_len(bytes: &[u8]) -> usize
    ensures value { result ≡ spec.query_len bytes.now }
    ensures within { result ≤ length bytes.now }
{
    match bytes {
        [b'?', query @ ..] => 1 + query_bytes(query),
        _ => 0,
    }
}

fn are_fragment_bytes(bytes: &[u8]) -> bool
    ensures { result ≡ list_all spec.is_fragment_byte bytes.now }
{
    bytes.iter().all(|&byte| is_fragment_byte(byte))
}

// Nothing, or `#` and a fragment.
pub(crate) fn is_fragment(bytes: &[u8]) -> bool
    ensures { result ≡ spec.is_fragment bytes.now }
{
    match bytes {
        [] => true,
        [b'#', fragment @ ..] => are_fragment_bytes(fragment),
        _ => false,
    }
}
