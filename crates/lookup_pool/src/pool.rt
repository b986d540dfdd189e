ghost use Rattle.std.specs.Prelude.{All, IsTrue};
ghost use Rattle.std.specs.List.{AllZip};
ghost use Rattle.std.specs.Thread.{IsSync, IsSend};

use crate::{Gate, RoundWriter, Seat};
use std::sync::Wait;
use std::thread::{Threads, join_mut};

/// Does the writer's work and that of each seat, each once, beside each other, and returns when all have
/// ended. It cannot be refused: what gets no thread is done by the thread that calls.
///
/// The calling thread does one part itself, and what is idle gets no thread: a round in which a single part
/// has work starts none.
pub fn round<R: Threads + Wait + Sync, W: RoundWriter + Send, S: Seat + Send, G: Gate + Sync>(
    rt: &R,
    writer: &mut W,
    seats: &mut [S],
    gate: &G,
)
    requires writer { W.can_write writer.old }
    requires seats { All S.can_work seats.old }
    ensures wrote { W.wrote writer.old writer.new }
    ensures worked { AllZip S.worked seats.old seats.new }
{
    if writer.is_idle() {
        work_all(rt, gate, seats);
    } else if are_idle(seats) {
        writer.write(rt, gate);
    } else {
        join_mut(
            rt,
            &mut || writer.write(rt, gate),
            &mut ||
                requires { IsSync R.row × IsSync G.row × IsSend S.row × All S.can_work seats.now }
                ensures { AllZip S.worked seats.entry.now seats.exit.now }
            { work_all(rt, gate, seats) },
        );
    }
}

// Whether no seat has anything to do.
fn are_idle<S: Seat>(seats: &[S]) -> bool
    requires { All S.can_work seats.now }
    ensures { IsTrue result → AllZip S.worked seats.now seats.now }
{
    for seat in seats {
        if !seat.is_idle() {
            return false;
        }
    }
    true
}

// The work of each seat. The slice is the last parameter, as closures that lend it read the others first.
#[cycle(seats)]
fn work_all<R: Threads + Sync, S: Seat + Send, G: Gate + Sync>(rt: &R, gate: &G, seats: &mut [S])
    requires { All S.can_work seats.old }
    ensures { AllZip S.worked seats.old seats.new }
{
    let Some((first, rest)) = seats.split_first_mut() else {
        return;
    };
    if first.is_idle() {
        work_all(rt, gate, rest);
    } else if are_idle(rest) {
        first.work(gate);
    } else {
        work_beside(rt, gate, first, rest);
    }
}

// The work of a seat beside that of the others.
#[cycle(seats)]
fn work_beside<R: Threads + Sync, S: Seat + Send, G: Gate + Sync>(
    rt: &R,
    gate: &G,
    first: &mut S,
    rest: &mut [S],
)
    requires first { S.can_work first.old }
    requires rest { All S.can_work rest.old }
    ensures first { S.worked first.old first.new }
    ensures rest { AllZip S.worked rest.old rest.new }
{
    join_mut(
        rt,
        &mut || first.work(gate),
        &mut ||
            requires { IsSync R.row × IsSync G.row × IsSend S.row × All S.can_work rest.now }
            ensures { AllZip S.worked rest.entry.now rest.exit.now }
        { work_all(rt, gate, rest) },
    );
}
