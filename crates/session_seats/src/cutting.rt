//! The lines of a script, cut from it ahead of their turn.
ghost use Rattle.std.specs.Prelude.{◌≡◌, ◌+◌, ◌<◌, ◌++◌, ◌∷◌, [], true, length, is_some, Option, List, ℕ, Ok, OnOk, IfOk, IsTrue, IsFalse, vec_len, vec_capacity};
ghost use Rattle.dnr_base.specs.Faults.{HasCauseOf};
ghost use Rattle.dnr_io.specs.Lines.{ahead};
ghost use Rattle.dnr_spec.specs.Lines.{max_line};
ghost use Rattle.session_seats.specs.Cutting.{AreCut, AreNoSync, CutsLines, CutsReady, EndsAtSync, IsNoSync, StandsBehind, cuts_nothing, given_by};

use crate::round_lines::{Room, RoundLines};
use dnr_io::{LineRefusal, Lines, NoMemory, Source};
use lines_ahead::{CutLine, PlainSearch, ask_all, ask_run};
use std::alloc::Global;
use std::marker::Model;
use std::mem::replace;
use std::thread::Threads;

// To cut what fewer bytes hold takes no longer than to start a thread.
const FEW_BYTES: usize = 8_192;

// Two rounds have no more lines.
const MOST_BUFFERS: usize = 2_048;

/// Cuts a script into its lines, and keeps those that it has cut until they are taken.
///
/// No line that it keeps is a sync but the last one.
#[derive(Drop)]
pub struct Cutter {
    lines: Lines,
    cut: Vec<CutLine>,
    // Whether no line is cut behind these: they fill a round, or the last may be a sync.
    closed: bool,
    // What a round takes that has no line.
    whole: Room,
    // The memory of earlier lines, which is used again.
    buffers: Vec<Vec<u8>>,
}

impl Model for Cutter {
    ghost use Rattle.std.specs.Prelude.{IsFalse};
    ghost use Rattle.session_seats.specs.Cutting.{AreCut, AreNoSync, CutterSeen};

    ghost Value = { CutterSeen };

    ghost view = { λ c. record { reading = c.lines; lines = c.cut.items } };

    ghost invariant = { λ c. AreCut c.lines.count c.cut.items × (IsFalse c.closed → AreNoSync c.cut.items) };
}

impl Cutter {
    /// Before the first line. A round that has no line takes so many.
    pub fn new(alloc: Global, whole: Room) -> Result<Cutter, NoMemory>
        ensures { IfOk result (λ cutter. cutter ≡ cuts_nothing) }
    {
        let lines = Lines::new(alloc)?;
        Ok(Cutter {
            lines,
            cut: Vec::new(alloc),
            closed: false,
            whole,
            buffers: Vec::new(alloc),
        })
    }

    /// Cuts on to what may be the end of the round that still takes so many lines: the end of the script, a line that may be
    /// a sync, or one behind which there is no more room. The source is read only where none of the lines that it keeps
    /// is such an end. `Ok(false)` is the end of the script, before which lines may have been cut; after `Ok(true)` there is
    /// one at least, and more may follow.
    ///
    /// So a program that ends its lines by a sync is answered before more is read.
    ///
    /// # Errors
    ///
    /// Those of `Lines::next`. The lines before are cut.
    pub fn cut<S: Source>(
        &mut self,
        alloc: Global,
        source: &mut S,
        room: Room,
    ) -> Result<bool, LineRefusal>
        requires live { IsTrue self.old.reading.live }
        ensures cut { CutsLines (ahead self.old.reading (S.left source.old)) self.old.lines self.new.lines
            (StandsBehind self.new.reading.count (ahead self.old.reading (S.left source.old)) (ahead self.new.reading (S.left source.new)) (S.left source.new) result) }
        ensures given { given_by self.new ≡ given_by self.old }
        ensures some { result ≡ Ok true → 0 < length self.new.lines }
        ensures live { result ≡ Ok true → IsTrue self.new.reading.live }
        ensures told { is_some (S.left source.new) ≡ is_some (S.left source.old) }
        ensures files { S.files source.new ≡ S.files source.old }
        ensures starts { S.starts source.new ≡ S.starts source.old }
        ensures cause { HasCauseOf LineRefusal.ReadFault (S.faults source.old) (S.faults source.new) result }
    {
        let mut room = room;
        let going = self.goes_on(&mut room);
        self.closed = true;
        cut_lines(
            alloc,
            &mut self.lines,
            source,
            &mut self.buffers,
            &mut self.cut,
            room,
            going,
        )
    }

    /// Cuts on out of what was read and not yet given, and asks no source: to the end of a whole round, or until no line
    /// stands there whole. Where memory runs out it leaves the rest to `cut`. Lines that are not plain are asked what they
    /// ask for.
    pub fn cut_ready(&mut self, alloc: Global)
        requires none { self.old.lines ≡ [] }
        ensures { CutsReady self.old self.new }
    {
        self.closed = cut_whole(
            alloc,
            &mut self.lines,
            &mut self.buffers,
            &mut self.cut,
            self.whole,
        );
        ask_ready(alloc, &mut self.cut);
    }

    /// Hands over the lines that were cut.
    pub fn take(&mut self, alloc: Global) -> Vec<CutLine>
        ensures lines { result.items ≡ self.old.lines }
        ensures cut { AreCut self.old.reading.count result.items }
        ensures reading { self.new.reading ≡ self.old.reading }
        ensures none { self.new.lines ≡ [] }
    {
        self.closed = false;
        replace(&mut self.cut, Vec::new(alloc))
    }

    // Whether the cut goes on behind the lines that were cut, in the room that they leave.
    fn goes_on(&self, room: &mut Room) -> bool
        ensures none { IsTrue result → AreNoSync self.now.lines }
        ensures some { IsFalse result → 0 < length self.now.lines }
    {
        if self.cut.is_empty() {
            return true;
        }
        !self.closed && take_all(room, &self.cut)
    }

    /// Whether enough was read and not yet given that a thread may cut it.
    pub fn is_ready(&self) -> bool {
        FEW_BYTES <= self.lines.ready()
    }

    /// Takes over the memory that a round has kept of earlier lines.
    pub fn keep_buffers(&mut self, alloc: Global, round: &mut RoundLines)
        ensures same { self.new ≡ self.old }
        ensures round { round.new ≡ round.old }
    {
        move_buffers(alloc, round, &mut self.buffers);
    }
}

// Cuts lines, behind those that were, until the cut ends or the next line can't be given. It does not go on where it ended
// before.
#[inline(never)]
fn cut_lines<S: Source>(
    alloc: Global,
    lines: &mut Lines,
    source: &mut S,
    buffers: &mut Vec<Vec<u8>>,
    cut: &mut Vec<CutLine>,
    room: Room,
    going: bool,
) -> Result<bool, LineRefusal>
    requires live { IsTrue lines.old.live }
    requires cut { AreCut lines.old.count cut.old.items }
    requires none { IsTrue going → AreNoSync cut.old.items }
    requires some { IsFalse going → 0 < length cut.old.items }
    ensures cut { CutsLines (ahead lines.old (S.left source.old)) cut.old.items cut.new.items
        (StandsBehind lines.new.count (ahead lines.old (S.left source.old)) (ahead lines.new (S.left source.new)) (S.left source.new) result) }
    ensures are_cut { AreCut lines.new.count cut.new.items }
    ensures counted { lines.new.count + length cut.old.items ≡ lines.old.count + length cut.new.items }
    ensures some { result ≡ Ok true → 0 < length cut.new.items }
    ensures live { result ≡ Ok true → IsTrue lines.new.live }
    ensures told { is_some (S.left source.new) ≡ is_some (S.left source.old) }
    ensures files { S.files source.new ≡ S.files source.old }
    ensures starts { S.starts source.new ≡ S.starts source.old }
    ensures cause { HasCauseOf LineRefusal.ReadFault (S.faults source.old) (S.faults source.new) result }
{
    let search = PlainSearch::new();
    let mut room = room;
    let mut going = going;
    while going {
        cut.reserve(1)?;
        let mut line = take_buffer(alloc, buffers);
        if !lines.next(source, &mut line)? {
            return Ok(false);
        }
        going = take_in(lines.count(), line, &search, cut, &mut room);
    }
    Ok(lines.live())
}

// Cuts lines that stand ready whole, behind those that were, and says whether the cut ended with one.
#[inline(never)]
fn cut_whole(
    alloc: Global,
    lines: &mut Lines,
    buffers: &mut Vec<Vec<u8>>,
    cut: &mut Vec<CutLine>,
    room: Room,
) -> bool
    requires cut { AreCut lines.old.count cut.old.items }
    requires none { AreNoSync cut.old.items }
    ensures cut { (left : Option (List ℕ)) → CutsLines (ahead lines.old left) cut.old.items cut.new.items
        (StandsBehind lines.new.count (ahead lines.old left) (ahead lines.new left) left (Ok true)) }
    ensures are_cut { AreCut lines.new.count cut.new.items }
    ensures counted { lines.new.count + length cut.old.items ≡ lines.old.count + length cut.new.items }
    ensures none { IsFalse result → AreNoSync cut.new.items }
    ensures live { lines.new.live ≡ lines.old.live }
{
    let search = PlainSearch::new();
    let mut room = room;
    let mut going = true;
    while going {
        if cut.reserve(1).is_err() {
            return false;
        }
        let mut line = take_buffer(alloc, buffers);
        if !lines.next_ready(&mut line) {
            let _kept = buffers.push(line);
            return false;
        }
        going = take_in(lines.count(), line, &search, cut, &mut room);
    }
    true
}

// Takes in one more line, for which there is memory, and says whether the cut goes on behind it: there is room for
// another, and this one is no sync.
fn take_in(
    number: u32,
    line: Vec<u8>,
    search: &PlainSearch,
    cut: &mut Vec<CutLine>,
    room: &mut Room,
) -> bool
    requires space { vec_len cut.old < vec_capacity cut.old }
    requires none { AreNoSync cut.old.items }
    ensures longer { cut.new.items ≡ cut.old.items ++ record { number = number; bytes = line.items } ∷ [] }
    ensures syncs { EndsAtSync cut.new.items }
    ensures none { IsTrue result → AreNoSync cut.new.items }
{
    let line = CutLine::new(number, line, search);
    let going = goes_on(room, &line);
    cut.push_reserved(line);
    going
}

// Whether the cut goes on behind a line.
fn goes_on(room: &mut Room, line: &CutLine) -> bool
    ensures { IsTrue result → IsNoSync line.now }
{
    let has_room = room.take(line.bytes().len());
    has_room && !line.may_sync()
}

// Less the room of lines that were cut, and whether there is room for another.
fn take_all(room: &mut Room, cut: &[CutLine]) -> bool {
    let mut has_room = true;
    for line in cut {
        has_room = room.take(line.bytes().len());
    }
    has_room
}

// A vector for the bytes of a line, in the memory of an earlier one if there is any.
fn take_buffer(alloc: Global, buffers: &mut Vec<Vec<u8>>) -> Vec<u8> {
    match buffers.pop() {
        Some(buffer) => buffer,
        None => Vec::new(alloc),
    }
}

// Moves what memory a round has kept of earlier lines to these buffers, but no more than two rounds need.
fn move_buffers(alloc: Global, round: &mut RoundLines, buffers: &mut Vec<Vec<u8>>)
    ensures { round.new ≡ round.old }
{
    while buffers.len() < MOST_BUFFERS {
        let buffer = round.buffer(alloc);
        if buffer.capacity() == 0 || buffers.push(buffer).is_err() {
            return;
        }
    }
}

// Asks the lines that were cut what they ask for. Plain lines are left to the seats.
fn ask_ready(alloc: Global, cut: &mut Vec<CutLine>)
    ensures { cut.new.items ≡ cut.old.items }
{
    ask_run(alloc, cut);
}

/// Asks the lines that were cut what they ask for, in at most so many threads. Plain lines are left to the seats.
#[inline(never)]
pub fn ask_cut<R: Threads + Sync>(rt: &R, alloc: Global, threads: usize, cut: &mut Vec<CutLine>)
    requires { 0 < threads }
    ensures { cut.new.items ≡ cut.old.items }
{
    ask_all(rt, alloc, threads, cut);
}
