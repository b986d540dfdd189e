//! A line of a script, as it is taken into its round.
ghost use Rattle.std.specs.Prelude.{◌≡◌, ◌≤◌, IfOk};
ghost use Rattle.session_rounds.specs.Lines.{IsLine};
ghost use Rattle.session_seats.specs.Reading.{HasTaken, IsTaken, seen_line};

use crate::round_line::RoundLine;
use dnr_base::NoMemory;
use lines_ahead::CutLine;
use regex_host::RegexHost;
use script_read::{LineFault, Memo};
use session_rounds::ReadLine;
use std::alloc::Global;

/// Reads a line that was cut, unless it is plain. The checker is asked for the patterns of updates.
pub fn take_line<H: RegexHost>(
    alloc: Global,
    line: CutLine,
    memo: &mut Memo,
    checker: &mut H,
) -> Result<RoundLine, NoMemory>
    ensures taken { IfOk result (HasTaken line.number line.bytes (H.faults checker.old) (H.faults checker.new)) }
    ensures later { H.faults checker.old ≤ H.faults checker.new }
{
    if line.is_plain() {
        return Ok(RoundLine::Plain(line));
    }
    let number = line.number();
    match line.finish(alloc, memo, checker) {
        Ok(command) => read_apart(
            alloc,
            ReadLine {
                number,
                read: Ok(command),
            },
        ),
        Err(LineFault::NoMemory) => Err(NoMemory),
        Err(fault) => read_apart(
            alloc,
            ReadLine {
                number,
                read: Err(fault),
            },
        ),
    }
}

// A line that was read.
fn read_apart(alloc: Global, line: ReadLine) -> Result<RoundLine, NoMemory>
    requires { IsLine line }
    ensures { IfOk result (λ read. (seen_line read ≡ line) × IsTaken read) }
{
    let apart: Result<_, _> = Box::new(alloc, line);
    match apart {
        Ok(apart) => Ok(RoundLine::Read(apart)),
        Err(_) => Err(NoMemory),
    }
}
