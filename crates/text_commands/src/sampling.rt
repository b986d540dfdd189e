// A session that is made from a number.
ghost use Rattle.std.specs.Prelude.{◌≡◌, ◌≢◌, IfOk, string_bytes};
ghost use Rattle.dnr_base.specs.Faults.{Rose};
ghost use Rattle.session_spec.specs.Sample.{IsSampled};
ghost use Rattle.text_commands.specs.Ends.{count};
ghost use Rattle.text_commands.specs.Texts.{EndsSample};

use crate::ending::write_to_end;
use dnr_base::NoMemory;
use dnr_io::{Sink, Status};
use dnr_words::Sample;
use explain_report::write_summary;
use session_sample::summary_of;
use std::alloc::Global;

/// Holds the session of a sample, and writes what sums it up.
pub fn make_sample<O: Sink>(alloc: Global, sample: &Sample, out: &mut O) -> Status
    ensures ends { EndsSample sample.now (O.taken out.old) (O.taken out.new)
        (count (O.faults out.old) (O.faults out.new)) result }
    ensures no_usage { result ≢ Status.Usage }
    ensures no_read_fault { result ≢ Status.ReadFault }
    ensures write_fault { result ≡ Status.WriteFault → Rose (O.faults out.old) (O.faults out.new) }
{
    match summary_text(alloc, sample) {
        Ok(text) => write_to_end(text.as_bytes(), Status::Done, out),
        Err(NoMemory) => Status::NoMemory,
    }
}

fn summary_text(alloc: Global, sample: &Sample) -> Result<String, NoMemory>
    ensures { IfOk result (λ text. IsSampled sample.now (string_bytes text)) }
{
    let summary = summary_of(alloc, sample)?;
    let mut text = String::new(alloc);
    write_summary(alloc, &summary.tally, summary.generation, &mut text)?;
    Ok(text)
}
