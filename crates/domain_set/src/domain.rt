// Which texts are domains, and which hosts one covers.
ghost use Rattle.std.specs.Prelude.{◌≡◌, ◌∷◌, nat_eq};
ghost use Rattle.std.specs.Str.{bytes_eq};
ghost use Rattle.std.specs.List.{list_all, ends_with};
ghost use Rattle.dnr_spec.specs.Domains as spec;

use dnr_spec::is_ip_host;

/// Whether a rule may list this domain: it is an address between brackets, or labels with a dot between each two.
pub fn is_domain(text: &[u8]) -> bool
    ensures { result ≡ spec.is_domain text.now }
{
    is_address(text) || is_name(text)
}

fn is_address(text: &[u8]) -> bool
    ensures { result ≡ spec.is_address text.now }
{
    match text {
        [b'[', address @ .., b']'] => are_address_bytes(address),
        _ => false,
    }
}

fn are_address_bytes(address: &[u8]) -> bool
    ensures { result ≡ list_all spec.is_address_byte address.now }
{
    address.iter().all(|byte| is_address_byte(*byte))
}

fn is_address_byte(byte: u8) -> bool
    ensures { result ≡ spec.is_address_byte byte }
{
    byte.is_ascii_hexdigit() || byte == b':' || byte == b'.'
}

// Labels with a dot between each two; `begun` where the label that is being read has a byte.
fn is_name(text: &[u8]) -> bool
    ensures { result ≡ spec.is_name text.now }
{
    let mut begun = false;
    for byte in text {
        if *byte == b'.' {
            if !begun {
                return false;
            }
            begun = false;
        } else {
            if !is_label_byte(*byte) {
                return false;
            }
            begun = true;
        }
    }
    begun
}

fn is_label_byte(byte: u8) -> bool
    ensures { result ≡ spec.is_label_byte byte }
{
    byte.is_ascii_alphanumeric() || byte == b'-' || byte == b'_'
}

// Whether the domain covers the host.
pub(crate) fn is_covered(domain: &str, host: &str) -> bool
    ensures { result ≡ spec.covers domain.now host.now }
{
    domain == host || (is_subdomain(domain.as_bytes(), host.as_bytes()) && !is_ip_host(host))
}

// Whether the host ends with a dot and the domain.
fn is_subdomain(domain: &[u8], host: &[u8]) -> bool
    ensures { result ≡ ends_with nat_eq host.now (46 ∷ domain.now) }
{
    if host.len() <= domain.len() {
        return false;
    }
    is_dot_and_domain(domain, &host[host.len() - domain.len() - 1..])
}

fn is_dot_and_domain(domain: &[u8], end: &[u8]) -> bool
    ensures { result ≡ bytes_eq (46 ∷ domain.now) end.now }
{
    match end.split_first() {
        Some((dot, rest)) => *dot == b'.' && rest == domain,
        None => false,
    }
}
