// What `sample` prints of its session.
ghost use Rattle.std.specs.Prelude.{◌≡◌, ◌++◌, OnOk, OnErr, string_bytes};
ghost use Rattle.session_spec.specs.Sample as spec;

use crate::text::{append, new_line, push_number_field, push_word};
use dnr_base::NoMemory;
use session_spec::Tally;
use std::alloc::Global;

/// Appends what `sample` prints of a session: the counts of its requests and verdicts, and that of its accepted updates.
///
/// `NoMemory`: no memory is left for it, and nothing is appended.
pub fn write_summary(
    alloc: Global,
    tally: &Tally,
    generation: u32,
    into: &mut String,
) -> Result<(), NoMemory>
    ensures appended { OnOk result (string_bytes into.new ≡ string_bytes into.old
        ++ spec.summary_line tally.now generation) }
    ensures kept { OnErr result (string_bytes into.new ≡ string_bytes into.old) }
{
    let mut text = new_line(alloc)?;
    push_number_field("{\"requests\":", tally.requests, &mut text)?;
    push_number_field(",\"none\":", tally.none, &mut text)?;
    push_number_field(",\"block\":", tally.block, &mut text)?;
    push_number_field(",\"allow\":", tally.allow, &mut text)?;
    push_number_field(",\"redirect\":", tally.redirect, &mut text)?;
    push_number_field(",\"upgrade\":", tally.upgrade, &mut text)?;
    push_number_field(",\"generation\":", generation, &mut text)?;
    push_word("}\n", &mut text)?;
    append(&text, into)
}
