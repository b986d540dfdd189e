// Headers.
ghost use Rattle.std.specs.Prelude.{◌≡◌, not, IfOk};
ghost use Rattle.std.specs.List.{list_any};
ghost use Rattle.std.specs.Option.{option_copied};
ghost use Rattle.dnr_spec.specs.Headers as words;
ghost use Rattle.line_spec.specs.RequestLine as spec;

use dnr_base::{Header, NoMemory, Text};
use header_actions::is_name;
use std::alloc::Global;

/// The header of a name and a value. None where one of them is missing or is none.
///
/// `NoMemory`: memory ran out.
pub fn header_of(
    alloc: Global,
    name: Option<&str>,
    value: Option<&str>,
) -> Result<Option<Header>, NoMemory>
    ensures { IfOk result (λ header. header ≡ spec.header_of (option_copied name.entry) (option_copied value.entry)) }
{
    match (name, value) {
        (Some(name), Some(value)) if is_name(name) && is_one_value(value) => Ok(Some(Header {
            name: Text::build(name.to_ascii_lowercase(alloc)?),
            value: Text::build(String::from_str(alloc, value)?),
        })),
        _ => Ok(None),
    }
}

// Whether no byte would end the value.
fn is_one_value(value: &str) -> bool
    ensures { result ≡ spec.is_one_value value.now }
{
    !has_end_of_value(value.as_bytes())
}

fn has_end_of_value(bytes: &[u8]) -> bool
    ensures { result ≡ list_any words.ends_value bytes.now }
{
    bytes
        .iter()
        .any(|byte| *byte == b'\r' || *byte == b'\n' || *byte == 0)
}
