// The host of a pattern: which one is, and which hosts it covers.
ghost use Rattle.std.specs.Prelude.{◌≡◌, ◌∷◌, map, nat_eq, codes};
ghost use Rattle.std.specs.Str.{bytes_eq};
ghost use Rattle.std.specs.List.{ends_with};
ghost use Rattle.dnr_spec.specs.Domains as domains;
ghost use Rattle.dnr_spec.specs.Domains.{lower_case};
ghost use Rattle.dnr_spec.specs.MatchPatterns as spec;

use dnr_spec::is_ip_host;
use domain_set::is_domain;

// Whether it is `*.` and something.
fn has_subdomains(text: &[u8]) -> bool
    ensures { result ≡ spec.has_subdomains text.now }
{
    text.starts_with(b"*.")
}

// Whether it is the host of a pattern: `*`, `*.` and a domain, or a domain.
pub(crate) fn is_host_part(text: &[u8]) -> bool
    ensures { result ≡ spec.is_host_part text.now }
{
    if text == b"*".as_slice() {
        true
    } else if has_subdomains(text) {
        is_domain(&text[2..])
    } else {
        is_domain(text)
    }
}

// Whether the text in lower case is this one.
fn is_lowered(text: &[u8], lowered: &[u8]) -> bool
    ensures { result ≡ bytes_eq (lower_case text.now) lowered.now }
{
    let mut rest = lowered;
    for byte in text {
        match rest.split_first() {
            Some((first, later)) if *first == byte.to_ascii_lowercase() => rest = later,
            _ => return false,
        }
    }
    rest.is_empty()
}

// Whether it is a dot and the domain in lower case.
fn is_dot_and_domain(domain: &[u8], end: &[u8]) -> bool
    ensures { result ≡ bytes_eq (46 ∷ lower_case domain.now) end.now }
{
    match end.split_first() {
        Some((dot, rest)) => *dot == b'.' && is_lowered(domain, rest),
        None => false,
    }
}

// Whether the host ends with a dot and the domain in lower case.
fn is_subdomain(domain: &[u8], host: &[u8]) -> bool
    ensures { result ≡ ends_with nat_eq host.now (46 ∷ lower_case domain.now) }
{
    if host.len() <= domain.len() {
        return false;
    }
    is_dot_and_domain(domain, &host[host.len() - domain.len() - 1..])
}

// Whether the domain covers the host and its subdomains.
fn is_covered(domain: &[u8], host: &str) -> bool
    ensures { result ≡ domains.covers (lower_case domain.now) host.now }
{
    is_lowered(domain, host.as_bytes())
        || (!is_ip_host(host) && is_subdomain(domain, host.as_bytes()))
}

// Whether the host of a pattern covers a host.
pub(crate) fn covers_host(text: &[u8], host: &str) -> bool
    ensures { result ≡ spec.covers_host text.now host.now }
{
    if text == b"*".as_slice() {
        true
    } else if has_subdomains(text) {
        is_covered(&text[2..], host)
    } else {
        is_lowered(text, host.as_bytes())
    }
}
