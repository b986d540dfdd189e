// The lines of a script, answered one after another.
ghost use Rattle.std.specs.Prelude.{◌≡◌, ◌≤◌, OnOk, IfErr, IsErrOf, IsTrue};
ghost use Rattle.std.specs.Io.KnownBytes.{Appends};
ghost use Rattle.dnr_base.specs.Faults.{HasCauseOf};
ghost use Rattle.keep_spec.specs.Agrees.{Agrees, Sound};
ghost use Rattle.keep_run_spec.specs.Ends.{between};
ghost use Rattle.keep_run.specs.Lines.{LineWritten, StopsAtLine, EndsLines};

use crate::answers::answer;
use crate::stop::KeepStop;
use dnr_io::{Lines, Sink, Source, write_all};
use keep_disk::Disk;
use regex_host::RegexHost;
use rule_keep::Keep;
use script_read::Memo;
use std::alloc::Global;

// Answers the lines that the source has left, in turn. Each answer is written before the next line is read.
pub(crate) fn answer_lines<S: Source, O: Sink, H: RegexHost, D: Disk>(
    alloc: Global,
    keep: &mut Keep,
    name: &str,
    source: &mut S,
    out: &mut O,
    host: &mut H,
    disk: &mut D,
) -> Result<(), KeepStop>
    requires live { IsTrue keep.old.live }
    requires name { keep.old.name ≡ name.now }
    requires agrees { IsTrue (D.tells disk.old) → Agrees (D.images disk.old) keep.old }
    ensures ends { IsTrue (D.tells disk.old) → EndsLines (S.left source.old) (O.taken out.old) (O.taken out.new)
        (between (H.faults host.old) (H.faults host.new)) keep.old (D.images disk.new) result }
    ensures sound { IsTrue (D.tells disk.old) → Sound keep.old.name (D.images disk.old) →
        Sound keep.old.name (D.images disk.new) }
    ensures tells { D.tells disk.new ≡ D.tells disk.old }
    ensures later { H.faults host.old ≤ H.faults host.new }
    ensures read_fault { HasCauseOf KeepStop.ReadFault (S.faults source.old) (S.faults source.new) result }
    ensures write_fault { HasCauseOf KeepStop.WriteFault (O.faults out.old) (O.faults out.new) result }
    ensures disk_fault { HasCauseOf KeepStop.DiskFault (D.faults disk.old) (D.faults disk.new) result }
{
    let mut lines = Lines::new(alloc)?;
    let mut line = Vec::new(alloc);
    let mut memo = Memo::new(alloc);
    let mut number = 0;
    while lines.next(source, &mut line)? {
        number += 1;
        answer_line(alloc, keep, name, number, &line, &mut memo, out, host, disk)?;
    }
    Ok(())
}

// Answers a line, and writes the answer.
fn answer_line<O: Sink, H: RegexHost, D: Disk>(
    alloc: Global,
    keep: &mut Keep,
    name: &str,
    number: u32,
    line: &[u8],
    memo: &mut Memo,
    out: &mut O,
    host: &mut H,
    disk: &mut D,
) -> Result<(), KeepStop>
    requires live { IsTrue keep.old.live }
    requires name { keep.old.name ≡ name.now }
    requires agrees { IsTrue (D.tells disk.old) → Agrees (D.images disk.old) keep.old }
    ensures written { OnOk result (LineWritten (Appends (O.taken out.old) (O.taken out.new))
        (between (H.faults host.old) (H.faults host.new)) keep.old number line.now keep.new) }
    ensures agrees { OnOk result (IsTrue (D.tells disk.old) → Agrees (D.images disk.new) keep.new) }
    ensures stops { IfErr result (λ stop. IsTrue (D.tells disk.old) →
        StopsAtLine (between (H.faults host.old) (H.faults host.new)) keep.old number line.now
        (D.images disk.new) (O.taken out.old) (O.taken out.new) stop) }
    ensures live { OnOk result (IsTrue keep.new.live) }
    ensures name { keep.new.name ≡ keep.old.name }
    ensures sound { IsTrue (D.tells disk.old) → Sound keep.old.name (D.images disk.old) →
        Sound keep.old.name (D.images disk.new) }
    ensures tells { D.tells disk.new ≡ D.tells disk.old }
    ensures later { H.faults host.old ≤ H.faults host.new }
    ensures read_fault { IsErrOf result KeepStop.ReadFault → ⊥ }
    ensures write_fault { HasCauseOf KeepStop.WriteFault (O.faults out.old) (O.faults out.new) result }
    ensures disk_fault { HasCauseOf KeepStop.DiskFault (D.faults disk.old) (D.faults disk.new) result }
{
    let text = answer(alloc, keep, name, number, line, memo, host, disk)?;
    write_all(out, text.as_bytes())?;
    Ok(())
}
