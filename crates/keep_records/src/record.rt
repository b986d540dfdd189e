// One record, as bytes.
ghost use Rattle.std.specs.Prelude.{◌≡◌, ◌+◌, ◌<◌, ◌^◌, true, false, length, take};
ghost use Rattle.std.specs.Prelude.{IfOk, MatchOption};
ghost use Rattle.keep_records.specs.Records.{number_of, number_bytes, size_of, stands, payload_of};
ghost use Rattle.keep_records.specs.Records.{behind_gate};

use dnr_base::NoMemory;
use std::alloc::Global;

/// The payload of the record that stands at the start, if one does: its gate byte is 1, and the bytes hold all of it
/// and the next gate byte.
pub fn first_payload(bytes: &[u8]) -> Option<&[u8]>
    ensures { MatchOption result (stands bytes.now ≡ false)
        (λ payload. (stands bytes.now ≡ true) × (payload.now ≡ payload_of bytes.now)) }
{
    if bytes.len() < 7 || bytes[0] != 1 {
        return None;
    }
    let size = read_number(&bytes[1..5]) as usize;
    if size == 0 || bytes.len() - 5 <= size {
        return None;
    }
    Some(&bytes[5..5 + size])
}

// The number that four bytes stand for.
fn read_number(bytes: &[u8]) -> u32
    requires { length bytes.now ≡ 4 }
    ensures { result ≡ number_of bytes.now }
{
    u32::from_be_bytes([bytes[0], bytes[1], bytes[2], bytes[3]])
}

/// What is written after a closed gate byte: the size, the payload, and a closed gate byte.
///
/// `NoMemory`: no memory is left for the bytes.
pub fn record_behind_gate(alloc: Global, payload: &[u8]) -> Result<Vec<u8>, NoMemory>
    requires { length payload.now < 2 ^ 32 }
    ensures { IfOk result (λ bytes. bytes.items ≡ behind_gate payload.now) }
{
    let mut bytes = Vec::new(alloc);
    bytes.extend_from_slice(&write_number(payload.len() as u32))?;
    bytes.extend_from_slice(payload)?;
    bytes.push(0)?;
    Ok(bytes)
}

fn write_number(number: u32) -> [u8; 4]
    ensures { result ≡ number_bytes number }
{
    number.to_be_bytes()
}
