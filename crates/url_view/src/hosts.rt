// Which texts are hosts of views.
ghost use Rattle.std.specs.Prelude.{◌≡◌};
ghost use Rattle.std.specs.List.{list_all};
ghost use Rattle.dnr_base.specs.View as hosts;

use crate::bytes::is_name_byte;

// A name or an IPv6 address.
pub(crate) fn is_host(host: &str) -> bool
    ensures { result ≡ hosts.is_host host.now }
{
    is_name(host.as_bytes()) || is_address(host.as_bytes())
}

fn is_name(host: &[u8]) -> bool
    ensures { result ≡ hosts.is_name host.now }
{
    !host.is_empty() && are_name_bytes(host)
}

fn are_name_bytes(name: &[u8]) -> bool
    ensures { result ≡ list_all hosts.is_name_byte name.now }
{
    name.iter().all(|byte| is_name_byte(*byte))
}

// An IPv6 address between brackets.
fn is_address(host: &[u8]) -> bool
    ensures { result ≡ hosts.is_address host.now }
{
    match host {
        [b'[', address @ .., b']'] => !address.is_empty() && are_address_bytes(address),
        _ => false,
    }
}

fn are_address_bytes(address: &[u8]) -> bool
    ensures { result ≡ list_all hosts.is_address_byte address.now }
{
    address.iter().all(|byte| is_address_byte(*byte))
}

fn is_address_byte(byte: u8) -> bool
    ensures { result ≡ hosts.is_address_byte byte }
{
    matches!(byte, b'a'..=b'f' | b'0'..=b'9' | b':')
}
