//! The command: the file is opened, and the script is answered.
ghost use Rattle.std.specs.Prelude.{◌≡◌, ◌≢◌, ◌≤◌, ◌↔◌, ◌⊎◌, None, map, length, string_bytes, IfSome, IsTrue};
ghost use Rattle.dnr_base.specs.Faults.{HasCauseOf, Rose};
ghost use Rattle.keep_spec.specs.Agrees.{Agrees, Sound};
ghost use Rattle.keep_run_spec.specs.Ends.{between};
ghost use Rattle.keep_run_spec.specs.Laws.{SomethingFailed, HasShortScript};
ghost use Rattle.keep_run_spec.specs.Words.{keeping_of};
ghost use Rattle.keep_run.specs.Ends.{around, images, EndsSo, EndsOpened, EndsRefused, status_of};
ghost use Rattle.keep_run.specs.Seen.{keeping_seen};

use crate::lines::answer_lines;
use crate::report::{bad_record_line, host_line, kept_line, too_long_line};
use crate::stop::KeepStop;
use crate::words::{Keeping, keeping_in};
use dnr_base::NoMemory;
use dnr_io::{Shelf, Sink, Status, write_all};
use keep_disk::Disk;
use regex_host::RegexHost;
use rule_keep::{Keep, OpenRefusal, UpdateCount};
use std::alloc::Global;

/// Keeps the dynamic rules of one extension in a file, which is the disk, as the words after the program's name say:
/// `keep FILE NAME SCRIPT`.
///
/// The empty extension NAME is installed, and the updates that the file holds are replayed; how many they are is written
/// first. Then the lines of the file SCRIPT are answered one after another. They may be dynamic updates of NAME: each is
/// judged, kept, and only then said to be accepted, before the next line is read.
///
/// With `Usage` nothing is read or written. FILE is printed alone where it is refused.
///
/// # Statuses
///
/// - `Done`: all lines were answered.
/// - `Refused`: the file has more than 67,108,864 bytes, or a record that is no dynamic update of NAME or is refused after
///   those before it, or the host failed at a pattern of one. The line that says so was written.
/// - `Usage`: the words are others.
/// - `ReadFault`, `WriteFault`, `DiskFault`: the shelf, the sink or the disk failed, and its count of faults rose.
/// - `NoMemory`: memory ran out.
/// - `FileTooLong`: a line is too long, or there are too many. Those before it were answered.
pub fn run_keep<F: Shelf, O: Sink, H: RegexHost, D: Disk>(
    alloc: Global,
    words: &[String],
    shelf: &mut F,
    out: &mut O,
    host: &mut H,
    disk: &mut D,
) -> Status
    // The shelf may be asked for the script. Nothing is known of other names, so none is asked for.
    requires names { IfSome (keeping_of (map string_bytes words.now)) (λ keeping. F.allows keeping.script) }
    ensures usage { (result ≡ Status.Usage) ↔ (keeping_of (map string_bytes words.now) ≡ None) }
    ensures silent { result ≡ Status.Usage → (O.taken out.new ≡ O.taken out.old) × (disk.new ≡ disk.old) }

    // Where the disk tells what it holds, the status and what was written are allowed, and so is what a crash may leave.
    ensures allowed { IsTrue (D.tells disk.old) → IfSome (keeping_of (map string_bytes words.now)) (λ keeping.
        EndsSo (F.Source.files shelf.old) keeping (around (F.Source.faults shelf.old) (F.Source.faults shelf.new)
        (O.faults out.old) (O.faults out.new) (H.faults host.old) (H.faults host.new) (D.faults disk.old) (D.faults disk.new))
        (images (D.seen disk.old) (D.images disk.old) (D.images disk.new)) (O.taken out.old) (O.taken out.new) result) }

    // A file that is sound for the extension stays so, and then all is answered unless something fails.
    ensures sound { IsTrue (D.tells disk.old) → IfSome (keeping_of (map string_bytes words.now)) (λ keeping.
        Sound keeping.extension (D.images disk.old) → Sound keeping.extension (D.images disk.new)) }
    ensures complete { IsTrue (D.tells disk.old) → IfSome (keeping_of (map string_bytes words.now)) (λ keeping.
        IfSome (F.Source.files shelf.old) (λ files.
        Sound keeping.extension (D.images disk.old) → HasShortScript files keeping.script →
        (result ≡ Status.Done) ⊎ (result ≡ Status.NoMemory) ⊎ SomethingFailed (around (F.Source.faults shelf.old) (F.Source.faults shelf.new)
        (O.faults out.old) (O.faults out.new) (H.faults host.old) (H.faults host.new) (D.faults disk.old) (D.faults disk.new)))) }
    ensures tells { D.tells disk.new ≡ D.tells disk.old }

    // A fault is told only where it was counted, whatever the shelf and the disk tell.
    ensures read_fault { result ≡ Status.ReadFault → Rose (F.Source.faults shelf.old) (F.Source.faults shelf.new) }
    ensures write_fault { result ≡ Status.WriteFault → Rose (O.faults out.old) (O.faults out.new) }
    ensures disk_fault { result ≡ Status.DiskFault → Rose (D.faults disk.old) (D.faults disk.new) }
{
    match keeping_in(words) {
        Some(keeping) => keep_rules(alloc, keeping, shelf, out, host, disk),
        None => Status::Usage,
    }
}

// Opens the file, and answers the script.
fn keep_rules<F: Shelf, O: Sink, H: RegexHost, D: Disk>(
    alloc: Global,
    keeping: Keeping<'_>,
    shelf: &mut F,
    out: &mut O,
    host: &mut H,
    disk: &mut D,
) -> Status
    requires named { F.allows keeping.script.now }
    ensures no_usage { result ≢ Status.Usage }
    ensures allowed { IsTrue (D.tells disk.old) → EndsSo (F.Source.files shelf.old) (keeping_seen keeping.entry)
        (around (F.Source.faults shelf.old) (F.Source.faults shelf.new)
        (O.faults out.old) (O.faults out.new) (H.faults host.old) (H.faults host.new) (D.faults disk.old) (D.faults disk.new))
        (images (D.seen disk.old) (D.images disk.old) (D.images disk.new)) (O.taken out.old) (O.taken out.new) result }
    ensures sound { IsTrue (D.tells disk.old) → Sound keeping.entry.extension.now (D.images disk.old) →
        Sound keeping.entry.extension.now (D.images disk.new) }
    ensures tells { D.tells disk.new ≡ D.tells disk.old }
    ensures read_fault { result ≡ Status.ReadFault → Rose (F.Source.faults shelf.old) (F.Source.faults shelf.new) }
    ensures write_fault { result ≡ Status.WriteFault → Rose (O.faults out.old) (O.faults out.new) }
    ensures disk_fault { result ≡ Status.DiskFault → Rose (D.faults disk.old) (D.faults disk.new) }
{
    match Keep::open::<D, H, UpdateCount>(alloc, disk, keeping.extension, host) {
        Ok((keep, updates)) => ended(answer_script(
            alloc,
            keep,
            updates.count,
            keeping.extension,
            keeping.script,
            shelf,
            out,
            host,
            disk,
        )),
        Err(OpenRefusal::DiskFault) => Status::DiskFault,
        Err(OpenRefusal::NoMemory) => Status::NoMemory,
        Err(OpenRefusal::KeepTooLong) => refuse(too_long_line(alloc, keeping.file), out),
        Err(OpenRefusal::BadRecord(place)) => refuse(
            bad_record_line(alloc, keeping.file, place),
            out,
        ),
        Err(OpenRefusal::HostFault) => refuse(host_line(alloc, keeping.file), out),
    }
}

// Says how many updates are kept, and answers the lines of the script.
fn answer_script<F: Shelf, O: Sink, H: RegexHost, D: Disk>(
    alloc: Global,
    keep: Keep,
    count: usize,
    name: &str,
    script: &str,
    shelf: &mut F,
    out: &mut O,
    host: &mut H,
    disk: &mut D,
) -> Result<(), KeepStop>
    requires named { F.allows script.now }
    requires live { IsTrue keep.live }
    requires name { keep.name ≡ name.now }
    requires count { count ≡ length keep.list }
    requires agrees { IsTrue (D.tells disk.old) → Agrees (D.images disk.old) keep }
    ensures ends { IsTrue (D.tells disk.old) → EndsOpened (F.Source.files shelf.old) script.now (O.taken out.old) (O.taken out.new)
        (between (H.faults host.old) (H.faults host.new)) keep (D.images disk.old) (D.images disk.new) result }
    ensures sound { IsTrue (D.tells disk.old) → Sound keep.name (D.images disk.old)
        → Sound keep.name (D.images disk.new) }
    ensures tells { D.tells disk.new ≡ D.tells disk.old }
    ensures later { H.faults host.old ≤ H.faults host.new }
    ensures read_fault { HasCauseOf KeepStop.ReadFault (F.Source.faults shelf.old) (F.Source.faults shelf.new) result }
    ensures write_fault { HasCauseOf KeepStop.WriteFault (O.faults out.old) (O.faults out.new) result }
    ensures disk_fault { HasCauseOf KeepStop.DiskFault (D.faults disk.old) (D.faults disk.new) result }
{
    let mut keep = keep;
    let text = kept_line(alloc, count)?;
    write_all(out, text.as_bytes())?;
    match shelf.start(script) {
        Ok(()) => answer_lines(alloc, &mut keep, name, shelf, out, host, disk),
        Err(_) => Err(KeepStop::ReadFault),
    }
}

// The status that the answering of a script ends with.
fn ended(answered: Result<(), KeepStop>) -> Status
    ensures status { result ≡ status_of answered }
    ensures no_usage { result ≢ Status.Usage }
{
    match answered {
        Ok(()) => Status::Done,
        Err(KeepStop::ReadFault) => Status::ReadFault,
        Err(KeepStop::WriteFault) => Status::WriteFault,
        Err(KeepStop::DiskFault) => Status::DiskFault,
        Err(KeepStop::TooLong) => Status::FileTooLong,
        Err(KeepStop::NoMemory) => Status::NoMemory,
    }
}

// Prints the line of a file that is refused, unless memory ran out for it.
fn refuse<O: Sink>(line: Result<String, NoMemory>, out: &mut O) -> Status
    ensures { EndsRefused (O.taken out.old) (O.taken out.new)
        (between (O.faults out.old) (O.faults out.new)) line result }
{
    let Ok(text) = line else {
        return Status::NoMemory;
    };
    match write_all(out, text.as_bytes()) {
        Ok(()) => Status::Refused,
        Err(_) => Status::WriteFault,
    }
}
