// The lines that are written where rules are kept, beside those that answer any script. Each is a text of its own.
ghost use Rattle.std.specs.Prelude.{◌≡◌, IfOk, string_bytes};
ghost use Rattle.keep_run_spec.specs.Output as spec;
ghost use Rattle.session_spec.specs.Output.{reply_line};
ghost use Rattle.session_spec.specs.Refusals.{file_line};

use dnr_base::NoMemory;
use explain_report::{Reply, quoted_text, write_reply};
use std::alloc::Global;

// How many updates the file held.
pub(crate) fn kept_line(alloc: Global, count: usize) -> Result<String, NoMemory>
    ensures { IfOk result (λ text. string_bytes text ≡ spec.kept_line count) }
{
    let mut text = String::new(alloc);
    write!(&mut text, "{{\"kept\":{count}}}\n")?;
    Ok(text)
}

// What the line of this number says that asks for no room in the file.
pub(crate) fn replied(alloc: Global, number: u32, reply: &Reply) -> Result<String, NoMemory>
    ensures { IfOk result (λ text. string_bytes text ≡ reply_line number reply.now) }
{
    let mut text = String::new(alloc);
    write_reply(alloc, number, reply, &mut text)?;
    Ok(text)
}

// What the line of this number says whose update the file has no room for.
pub(crate) fn full_line(alloc: Global, number: u32) -> Result<String, NoMemory>
    ensures { IfOk result (λ text. string_bytes text ≡ spec.full_line number) }
{
    let mut text = String::new(alloc);
    write!(
        &mut text,
        "{{\"line\":{number},\"refused\":\"keep-full\"}}\n"
    )?;
    Ok(text)
}

// What is printed of a file that is too long.
pub(crate) fn too_long_line(alloc: Global, file: &str) -> Result<String, NoMemory>
    ensures { IfOk result (λ text. string_bytes text ≡ spec.too_long_line file.now) }
{
    refused_line(alloc, file, "\"keep-too-long\"")
}

// What is printed of a file whose record at this place is not one that it may hold.
pub(crate) fn bad_record_line(alloc: Global, file: &str, place: u64) -> Result<String, NoMemory>
    ensures { IfOk result (λ text. string_bytes text ≡ spec.bad_record_line file.now place) }
{
    let mut fields = String::new(alloc);
    write!(&mut fields, "\"bad-record\",\"offset\":{place}")?;
    refused_line(alloc, file, fields.as_str())
}

// What is printed of a file at whose records the pattern host failed.
pub(crate) fn host_line(alloc: Global, file: &str) -> Result<String, NoMemory>
    ensures { IfOk result (λ text. string_bytes text ≡ spec.host_line file.now) }
{
    refused_line(alloc, file, "\"pattern-host\"")
}

// The line of a file that is refused, with these fields.
fn refused_line(alloc: Global, file: &str, fields: &str) -> Result<String, NoMemory>
    ensures { IfOk result (λ text. string_bytes text ≡ file_line file.now fields.now) }
{
    let mut text = String::new(alloc);
    let name = quoted_text(alloc, file)?;
    text.push_str("{\"file\":")?;
    text.push_str(name.as_str())?;
    text.push_str(",\"refused\":")?;
    text.push_str(fields)?;
    text.push_str("}\n")?;
    Ok(text)
}
