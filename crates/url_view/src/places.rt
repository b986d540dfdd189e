// Where the parts of a URL stand in a text that is in serialized form already.
ghost use Rattle.std.specs.Prelude.{◌≡◌, ◌++◌, codes, true, false, IfSome};
ghost use Rattle.dnr_base.specs.Scheme.{scheme_text};
ghost use Rattle.url_view.specs.Plain.{IsPlain, IsOrigin, IsBehind, is_web};

use crate::bytes::{begins_with_slash, is_fragment, is_named, name_len, path_len, query_len};
use dnr_base::{Scheme, Span};

/// The places of a URL's parts, in bytes of its text.
#[derive(Clone, Copy)]
pub struct Plain {
    /// Whether the text is the whole URL. If not, it ends with its host, and `/` is missing.
    pub rooted: bool,
    /// Where the URL without its fragment ends.
    pub cut: usize,
    /// What the URL begins with.
    pub scheme: Scheme,
    /// The host.
    pub host: Span,
}

/// Finds the parts of a URL of http, https, ws or wss that is in serialized form already (URL
/// Standard 4.5, URL serializing), so that it is read as it stands, or with `/` at its end.
///
/// `None` says nothing of the text: it is the answer wherever it takes more than a look at each byte
/// to tell. So it is for another scheme, user information, a port, a host whose last label does not
/// begin with a letter, a segment that begins with `.` or `%`, and a byte that the standard may
/// lower, turn round or escape.
pub fn find_plain(text: &[u8]) -> Option<Plain>
    ensures rooted { IfSome result (λ p. p.rooted ≡ true → IsPlain text.now p.cut p.scheme p.host) }
    ensures origin { IfSome result (λ p. p.rooted ≡ false → IsOrigin text.now p.cut p.scheme p.host) }
{
    let (scheme, rest) = scheme_of(text)?;
    let (host, behind_host) = rest.split_at(name_len(rest));
    if !is_named(host) {
        return None;
    }
    let host = Span {
        start: text.len() - rest.len(),
        end: text.len() - behind_host.len(),
    };
    if behind_host.is_empty() {
        return Some(Plain {
            rooted: false,
            cut: text.len() + 1,
            scheme,
            host,
        });
    }
    let behind_query = behind_query(behind_host)?;
    Some(Plain {
        rooted: true,
        cut: text.len() - behind_query.len(),
        scheme,
        host,
    })
}

// The scheme, and what follows its `://`.
fn scheme_of(text: &[u8]) -> Option<(Scheme, &[u8])>
    ensures spelled { IfSome result (λ r. text.now ≡ scheme_text r.0 ++ (codes "://" ++ r.1.now)) }
    ensures web { IfSome result (λ r. is_web r.0 ≡ true) }
{
    match text {
        [b'h', b't', b't', b'p', b's', b':', b'/', b'/', rest @ ..] => Some((Scheme::Https, rest)),
        [b'h', b't', b't', b'p', b':', b'/', b'/', rest @ ..] => Some((Scheme::Http, rest)),
        [b'w', b's', b's', b':', b'/', b'/', rest @ ..] => Some((Scheme::Wss, rest)),
        [b'w', b's', b':', b'/', b'/', rest @ ..] => Some((Scheme::Ws, rest)),
        _ => None,
    }
}

// What follows the path and the query, if that is a fragment or nothing.
fn behind_query(behind_host: &[u8]) -> Option<&[u8]>
    ensures { IfSome result (λ r. IsBehind behind_host.now r.now) }
{
    if !begins_with_slash(behind_host) {
        return None;
    }
    let (_path, behind_path) = behind_host.split_at(path_len(behind_host));
    let (_query, behind_query) = behind_path.split_at(query_len(behind_path));
    if is_fragment(behind_query) {
        Some(behind_query)
    } else {
        None
    }
}
