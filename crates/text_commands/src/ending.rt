// How a command ends that writes one text, or stops.
ghost use Rattle.std.specs.Prelude.{◌≡◌};
ghost use Rattle.text_commands.specs.Ends.{EndsStop, EndsText, count};

use dnr_io::{Sink, Status, write_all};
use session_load::Stop;

/// Writes the text, and ends with this status if all of it was written.
pub fn write_to_end<O: Sink>(text: &[u8], all: Status, out: &mut O) -> Status
    ensures { EndsText (O.taken out.old) (O.taken out.new)
        (count (O.faults out.old) (O.faults out.new)) text.now all result }
{
    match write_all(out, text) {
        Ok(()) => all,
        Err(_) => Status::WriteFault,
    }
}

/// Ends a run that stops before it answers; where something is refused, the line that says so is written.
pub fn stop_with<O: Sink>(stop: &Stop, out: &mut O) -> Status
    ensures { EndsStop (O.taken out.old) (O.taken out.new)
        (count (O.faults out.old) (O.faults out.new)) stop.now result }
{
    match stop {
        Stop::Refused(line) => write_to_end(line.as_bytes(), Status::Refused, out),
        Stop::ReadFault => Status::ReadFault,
        Stop::FileTooLong => Status::FileTooLong,
        Stop::NoMemory => Status::NoMemory,
    }
}
