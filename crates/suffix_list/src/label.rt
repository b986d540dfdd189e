ghost use Rattle.std.specs.Prelude.{◌≡◌, IfOk, string_bytes};
ghost use Rattle.std.specs.Char.{is_ascii};
ghost use Rattle.std.specs.List.{list_all};
ghost use Rattle.std.specs.Option.{option_map, option_and_then};
ghost use Rattle.idna.specs.declared.deny_list.TheConstants.AsciiDenyList.{EMPTY};
ghost use Rattle.idna.specs.Uts46.{domain_to_ascii};
ghost use Rattle.dnr_spec.specs.Suffixes as spec;

use dnr_spec::NoMemory;
use idna::{AsciiDenyList, Errors, domain_to_ascii_cow};
use std::alloc::Global;

// A label of a rule as hosts have it, or none where it is no label.
#[tactic(auto, unfolding(dnr_spec::specs::Suffixes::read_label))]
pub fn read_label(alloc: Global, label: &str) -> Result<Option<String>, NoMemory>
    ensures { IfOk result (λ found. option_map string_bytes found ≡ spec.read_label label.now) }
{
    if label == "*" {
        return Ok(Some(String::from_str(alloc, label)?));
    }
    let read = if is_all_ascii(label.as_bytes()) {
        Some(label.to_ascii_lowercase(alloc)?)
    } else {
        converted(alloc, label)?
    };
    Ok(if_plain(read))
}

fn is_all_ascii(label: &[u8]) -> bool
    ensures { result ≡ list_all is_ascii label.now }
{
    label.iter().all(|b| b.is_ascii())
}

// The form of a label past ASCII in the names of hosts.
fn converted(alloc: Global, label: &str) -> Result<Option<String>, NoMemory>
    ensures { IfOk result (λ found. option_map string_bytes found ≡ domain_to_ascii EMPTY label.now) }
{
    match domain_to_ascii_cow(alloc, label.as_bytes(), AsciiDenyList::EMPTY) {
        Ok(text) => Ok(Some(text.into_owned(alloc)?)),
        Err(Errors::Invalid) => Ok(None),
        Err(Errors::OutOfMemory) => Err(NoMemory),
    }
}

fn if_plain(label: Option<String>) -> Option<String>
    ensures { option_map string_bytes result ≡ option_and_then spec.if_plain (option_map string_bytes label) }
{
    let label = label?;
    if is_plain_label(label.as_bytes()) {
        Some(label)
    } else {
        None
    }
}

fn is_plain_label(label: &[u8]) -> bool
    ensures { result ≡ spec.is_plain_label label.now }
{
    !label.is_empty() && has_label_bytes_alone(label)
}

fn has_label_bytes_alone(label: &[u8]) -> bool
    ensures { result ≡ list_all spec.is_label_byte label.now }
{
    label
        .iter()
        .all(|b| b.is_ascii_alphanumeric() || *b == b'-' || *b == b'_')
}
