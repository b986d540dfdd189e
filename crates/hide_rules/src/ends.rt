//! The domains that cover a host.
ghost use Rattle.std.specs.Prelude.{◌≡◌, ◌++◌, ◌∷◌, [], map, IfOk, OnOk};
ghost use Rattle.hide_rules.specs.Ends.{ends_of, ends_behind};
ghost use Rattle.hide_rules.specs.Texts.{texts_of};

use dnr_base::NoMemory;
use dnr_spec::is_ip_host;
use std::alloc::Global;

/// The domains that cover a host, the longest first: the host itself, and what stands behind each of its dots unless it
/// is an address.
///
/// `NoMemory`: no memory is left for the list.
pub fn ends_of(alloc: Global, host: &str) -> Result<Vec<&str>, NoMemory>
    ensures { IfOk result (λ ends. texts_of ends.items ≡ ends_of host.now) }
{
    let mut ends = Vec::new(alloc);
    ends.push(host)?;
    if is_ip_host(host) {
        return Ok(ends);
    }
    let mut rest = host;
    while let Some((_, behind)) = rest.split_once('.') {
        ends.push(behind)?;
        rest = behind;
    }
    Ok(ends)
}
