//! What a round says, once all its parts have done their work.
ghost use Rattle.std.specs.Prelude.{◌≡◌, ◌≤◌, ◌<◌, ◌++◌, true, length, map, get_or, IfOk, OnOk, IsTrue, IsFalse, string_bytes};
ghost use Rattle.std.specs.List.{All};
ghost use mathlib.Core.List.{IsPrefix};
ghost use Rattle.line_spec.specs.Line.{command_of};
ghost use Rattle.lines_ahead.specs.Cut.{IsPlainLine};
ghost use Rattle.session_laws.specs.Turns.{NoneFell};
ghost use Rattle.session_rounds.specs.Lines.{IsLine, is_asked, is_asking, read_seen};
ghost use Rattle.session_rounds.specs.Rounds.{SeatTold, Settled};
ghost use Rattle.session_seats.specs.Reading.{IsTaken, seen_line};
ghost use Rattle.session_seats.specs.Rounds.{AnsweredAnew, AreWithin};
ghost use Rattle.session_seats.specs.Seats.{IsTrusted, MaySay, SaysWithin};
ghost use Rattle.session_seats.specs.Writing.{WriterSaysAll, plain_text, text_with};

use crate::desk::Desk;
use crate::office::Office;
use crate::round_line::RoundLine;
use crate::round_lines::RoundLines;
use crate::said::Said;
use dnr_base::NoMemory;
use explain_report::write_bad;
use lines_ahead::CutLine;
use published::{Note, Pair};
use regex_host::RegexHost;
use script_read::{Command, LineFault, Memo};
use session_rounds::ReadLine;
use session_serve::{decide, explain};
use std::alloc::Global;

/// Appends what the lines of a round say, in their order. The round began after `floor`. `latest` has the last number of
/// each seat, and `counted` how often its host had failed before the round: what is said of its faults beyond that was
/// counted in the round.
#[inline(never)]
pub fn settle<P: Pair, H: RegexHost>(
    alloc: Global,
    floor: &Note<P>,
    round: &RoundLines,
    office: &Office<P>,
    desks: &[Desk<P>],
    finders: &mut [H],
    latest: &mut [u32],
    counted: &mut [u64],
    into: &mut String,
) -> Result<(), NoMemory>
    requires fresh { P.opening.state.count ≡ 0 }
    requires trusted { All (IsTrusted P.opening round.now.reads office.now.list) desks.now }
    requires some { 0 < length desks.now }
    requires finders { length finders.old ≡ length desks.now }
    requires latest { length latest.old ≡ length desks.now }
    requires counted { NoneFell counted.old (map H.faults finders.old) }
    requires floor { IsPrefix floor.now office.now.list }
    requires within { AreWithin (length floor.now) (length office.now.list) latest.old }
    requires written { WriterSaysAll P.opening floor.now round.now.lines office.now.texts office.now.list }
    ensures settled { OnOk result (Settled P.opening floor.now office.now.list (length desks.now) 0 floor.now round.now.reads office.now.list latest.old
        (string_bytes into.old) (string_bytes into.new) counted.old counted.new) }
    ensures counted { OnOk result (NoneFell counted.new (map H.faults finders.new)) }
    ensures later { NoneFell (map H.faults finders.old) (map H.faults finders.new) }
{
    let lines = round.lines();
    let mut memo = Memo::new(alloc);
    let mut asked = 0;
    for place in 0..lines.len() {
        let line = &lines[place];
        let seat = asked % desks.len();
        let turn = asked / desks.len();
        let said = said_to(round, office, &desks[seat], line, place, turn);
        let asks = say_line(
            alloc,
            floor,
            office,
            line,
            place,
            said,
            &mut memo,
            &mut finders[seat],
            &mut latest[seat],
            &mut counted[seat],
            into,
        )?;
        if asks {
            asked += 1;
        }
    }
    Ok(())
}

// What the seat whose turn it is said to the line at this place, if anything. So many lines before it were its own: its answers
// are those to the first of them.
fn said_to<'a, P: Pair>(
    _round: &RoundLines,
    _office: &Office<P>,
    desk: &'a Desk<P>,
    _line: &RoundLine,
    place: usize,
    turn: usize,
) -> Option<Said<'a>>
    requires trusted { IsTrusted P.opening _round.now.reads _office.now.list desk.now }
    requires inside { place < length _round.now.reads }
    requires there { seen_line _line.now ≡ get_or _round.now.reads place (seen_line _line.now) }
    ensures { MaySay P.opening (seen_line _line.now) _office.now.list result }
{
    desk.answer_to(turn, place)
}

// Appends what a line says, and says whether it asks a seat: what the seat said, if that stands, or else what is decided on
// the writer's generation; and to a line that asks none what the writer says.
fn say_line<P: Pair, H: RegexHost>(
    alloc: Global,
    floor: &Note<P>,
    office: &Office<P>,
    line: &RoundLine,
    place: usize,
    said: Option<Said<'_>>,
    memo: &mut Memo,
    finder: &mut H,
    latest: &mut u32,
    counted: &mut u64,
    into: &mut String,
) -> Result<bool, NoMemory>
    requires fresh { P.opening.state.count ≡ 0 }
    requires taken { IsTaken line.now }
    requires inside { place < length office.now.texts }
    requires floor { IsPrefix floor.now office.now.list }
    requires above { length floor.now ≤ latest.old }
    requires below { latest.old ≤ length office.now.list }
    requires counted { counted.old ≤ H.faults finder.old }
    requires said { MaySay P.opening (seen_line line.now) office.now.list said }
    ensures asks { IfOk result (λ asks. is_asking (seen_line line.now) ≡ asks) }
    ensures told { IfOk result (λ asks. IsTrue asks → SeatTold P.opening floor.now office.now.list (seen_line line.now).number (read_seen (seen_line line.now).read)
        latest.old latest.new (string_bytes into.old) (string_bytes into.new) counted.old counted.new) }
    ensures text { IfOk result (λ asks. IsFalse asks
        → string_bytes into.new ≡ string_bytes into.old ++ text_with line.now
        (get_or office.now.texts place (string_bytes into.old))) }
    ensures still { IfOk result (λ asks. IsFalse asks → (latest.new ≡ latest.old) × (counted.new ≡ counted.old)) }
    ensures latest { (latest.old ≤ latest.new) × (latest.new ≤ length office.now.list) }
    ensures counted { counted.new ≤ H.faults finder.new }
    ensures later { H.faults finder.old ≤ H.faults finder.new }
{
    if let Some(said) = said {
        let faults = finder.faults();
        if may_stand(&said, *latest, office.number(), *counted, faults) {
            say_again(line, floor, office, &said, faults, latest, counted, into)?;
            return Ok(true);
        }
    }
    match line {
        RoundLine::Read(line) => {
            if line.asks() {
                say_anew(alloc, floor, office, line, finder, latest, counted, into)?;
                return Ok(true);
            }
            into.push_str(&office.texts()[place])?;
            Ok(false)
        }
        RoundLine::Plain(line) => say_plain(
            alloc, floor, office, line, memo, finder, latest, counted, into,
        ),
    }
}

// Appends what a seat said, which stands.
fn say_again<P: Pair>(
    _line: &RoundLine,
    _floor: &Note<P>,
    _office: &Office<P>,
    said: &Said<'_>,
    _faults: u64,
    latest: &mut u32,
    counted: &mut u64,
    into: &mut String,
) -> Result<(), NoMemory>
    requires floor { IsPrefix _floor.now _office.now.list }
    requires above { length _floor.now ≤ latest.old }
    requires later { latest.old ≤ said.now.number }
    requires below { said.now.number ≤ length _office.now.list }
    requires counted { counted.old ≤ _faults }
    requires told { said.now.failed ≡ true → counted.old < _faults }
    requires said { SaysWithin P.opening (seen_line _line.now) _office.now.list said.now }
    ensures told { OnOk result (SeatTold P.opening _floor.now _office.now.list (seen_line _line.now).number (read_seen (seen_line _line.now).read)
        latest.old latest.new (string_bytes into.old) (string_bytes into.new) counted.old counted.new) }
    ensures latest { (latest.old ≤ latest.new) × (latest.new ≤ length _office.now.list) }
    ensures counted { counted.new ≤ _faults }
{
    into.push_str(said.text)?;
    *latest = said.number;
    if said.failed {
        *counted += 1;
    }
    Ok(())
}

// Appends what is decided on the writer's generation to a line that asks a seat.
fn say_anew<P: Pair, H: RegexHost>(
    alloc: Global,
    floor: &Note<P>,
    office: &Office<P>,
    line: &ReadLine,
    finder: &mut H,
    latest: &mut u32,
    counted: &mut u64,
    into: &mut String,
) -> Result<(), NoMemory>
    requires fresh { P.opening.state.count ≡ 0 }
    requires line { IsLine line.now }
    requires asks { is_asking line.now ≡ true }
    requires floor { IsPrefix floor.now office.now.list }
    requires below { latest.old ≤ length office.now.list }
    requires counted { counted.old ≤ H.faults finder.old }
    ensures told { OnOk result (SeatTold P.opening floor.now office.now.list line.now.number (read_seen line.now.read) latest.old latest.new
        (string_bytes into.old) (string_bytes into.new) counted.old counted.new) }
    ensures latest { (latest.old ≤ latest.new) × (latest.new ≤ length office.now.list) }
    ensures counted { counted.new ≤ H.faults finder.new }
    ensures later { H.faults finder.old ≤ H.faults finder.new }
{
    answer_anew(alloc, office, line, finder, into)?;
    *latest = office.number();
    *counted = finder.faults();
    Ok(())
}

// Reads a plain line, and appends what it says: to a request what is decided on the writer's generation.
fn say_plain<P: Pair, H: RegexHost>(
    alloc: Global,
    floor: &Note<P>,
    office: &Office<P>,
    line: &CutLine,
    memo: &mut Memo,
    finder: &mut H,
    latest: &mut u32,
    counted: &mut u64,
    into: &mut String,
) -> Result<bool, NoMemory>
    requires fresh { P.opening.state.count ≡ 0 }
    requires plain { IsPlainLine line.now }
    requires floor { IsPrefix floor.now office.now.list }
    requires below { latest.old ≤ length office.now.list }
    requires counted { counted.old ≤ H.faults finder.old }
    ensures asks { IfOk result (λ asks. is_asked (command_of line.now.number line.now.bytes) ≡ asks) }
    ensures told { IfOk result (λ asks. IsTrue asks → SeatTold P.opening floor.now office.now.list line.now.number (command_of line.now.number line.now.bytes)
        latest.old latest.new (string_bytes into.old) (string_bytes into.new) counted.old counted.new) }
    ensures text { IfOk result (λ asks. IsFalse asks
        → string_bytes into.new ≡ string_bytes into.old ++ plain_text line.now.number
        (command_of line.now.number line.now.bytes)) }
    ensures still { IfOk result (λ asks. IsFalse asks → (latest.new ≡ latest.old) × (counted.new ≡ counted.old)) }
    ensures latest { (latest.old ≤ latest.new) × (latest.new ≤ length office.now.list) }
    ensures counted { counted.new ≤ H.faults finder.new }
    ensures later { H.faults finder.old ≤ H.faults finder.new }
{
    let number = line.number();
    match line.read_plain(alloc, memo) {
        Ok(command) => {
            let line = ReadLine {
                number,
                read: Ok(command),
            };
            if !line.asks() {
                return Ok(false);
            }
            say_anew(alloc, floor, office, &line, finder, latest, counted, into)?;
            Ok(true)
        }
        Err(LineFault::NoMemory) => Err(NoMemory),
        Err(fault) => {
            write_bad(alloc, number, &fault, into)?;
            Ok(false)
        }
    }
}

// Whether what a seat said stands: it says no less than the seat did before, and no more than the writer, and a fault is
// one that was counted and not told yet.
fn may_stand(said: &Said<'_>, latest: u32, end: u32, counted: u64, faults: u64) -> bool
    ensures within { IsTrue result → (latest ≤ said.now.number) × (said.now.number ≤ end) }
    ensures counted { IsTrue result → said.now.failed ≡ true → counted < faults }
{
    latest <= said.number && said.number <= end && (!said.failed || counted < faults)
}

// Appends what becomes of the request of a line after all that the writer has accepted.
fn answer_anew<P: Pair, H: RegexHost>(
    alloc: Global,
    office: &Office<P>,
    line: &ReadLine,
    finder: &mut H,
    into: &mut String,
) -> Result<(), NoMemory>
    requires line { IsLine line.now }
    ensures told { OnOk result (AnsweredAnew P.opening office.now.list line.now (string_bytes into.old) (string_bytes into.new)
        (H.faults finder.old) (H.faults finder.new)) }
    ensures later { H.faults finder.old ≤ H.faults finder.new }
{
    match &line.read {
        Ok(Command::Request(request)) => {
            decide(
                alloc,
                office.generation(),
                line.number,
                request,
                finder,
                into,
            )
        }
        Ok(Command::Explain(request)) => {
            explain(
                alloc,
                office.generation(),
                line.number,
                request,
                finder,
                into,
            )
        }
        Ok(Command::Blank | Command::Sync | Command::Update(_) | Command::Batch(_)) | Err(_) => Ok(
            (),
        ),
    }
}
