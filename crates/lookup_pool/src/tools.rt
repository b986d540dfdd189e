ghost use Rattle.std.specs.Prelude.{◌≡◌, All, IsTrue, List, length};
ghost use Rattle.std.specs.List.{AllZip};
ghost use Rattle.std.specs.Thread.{IsSync, IsSend};

use crate::{Gate, SharedWriter, ToolSeat};
use std::sync::Wait;
use std::thread::{Threads, join_mut};

/// Does the writer's work and that of each seat, each once, beside each other, and returns when all have ended. Each
/// seat has the tool at its place. It cannot be refused: what gets no thread is done by the thread that calls.
///
/// The calling thread does one part itself. What is idle or quick gets no thread, so a round with a single request starts
/// none.
pub fn round_with_tools<
    R: Threads + Wait + Sync,
    C: Sync,
    W: SharedWriter<C> + Send,
    T: Send,
    S: ToolSeat<C, T> + Send,
    G: Gate + Sync,
>(rt: &R, gate: &G, shared: &C, writer: &mut W, seats: &mut [S], tools: &mut [T])
    requires writer { W.can_write shared.now writer.old }
    requires seats { All (S.can_work shared.now) seats.old }
    requires tools { length tools.old ≡ length seats.old }
    ensures wrote { W.wrote shared.now writer.old writer.new }
    ensures worked { AllZip (S.worked shared.now) seats.old seats.new }
    ensures used { AllZip S.used tools.old tools.new }
{
    if writer.is_quick(shared) {
        writer.write(rt, shared, gate);
        seats_with_tools(rt, gate, shared, seats, tools);
    } else {
        join_mut(
            rt,
            &mut || writer.write(rt, shared, gate),
            &mut ||
                requires { IsSync R.row × IsSync G.row × IsSync C.row × IsSend S.row × IsSend T.row
                    × All (S.can_work shared.now) seats.now × (length tools.now ≡ length seats.now) }
                ensures { AllZip (S.worked shared.entry.now) seats.entry.now seats.exit.now
                    × AllZip S.used tools.entry.now tools.exit.now }
            { seats_with_tools(rt, gate, shared, seats, tools) },
        );
    }
}

// Whether no seat has anything to do.
fn are_idle<C, T, S: ToolSeat<C, T>>(shared: &C, seats: &[S]) -> bool
    requires { All (S.can_work shared.now) seats.now }
    ensures worked { IsTrue result → AllZip (S.worked shared.now) seats.now seats.now }
    ensures used { IsTrue result → (tools : List T) → length tools ≡ length seats.now → AllZip S.used tools tools }
{
    for seat in seats {
        if !seat.is_idle(shared) {
            return false;
        }
    }
    true
}

/// Does the work of each seat, each once, beside each other, and returns when all have ended: a round without a writer. Each
/// seat has the tool at its place.
#[cycle(seats)]
pub fn seats_with_tools<
    R: Threads + Sync,
    C: Sync,
    T: Send,
    S: ToolSeat<C, T> + Send,
    G: Gate + Sync,
>(rt: &R, gate: &G, shared: &C, seats: &mut [S], tools: &mut [T])
    requires seats { All (S.can_work shared.now) seats.old }
    requires tools { length tools.old ≡ length seats.old }
    ensures worked { AllZip (S.worked shared.now) seats.old seats.new }
    ensures used { AllZip S.used tools.old tools.new }
{
    let Some((first, rest)) = seats.split_first_mut() else {
        return;
    };
    let Some((tool, others)) = tools.split_first_mut() else {
        return;
    };
    if first.is_idle(shared) {
        seats_with_tools(rt, gate, shared, rest, others);
    } else if are_idle(shared, rest) {
        first.work(shared, tool, gate);
    } else {
        work_beside(rt, gate, shared, first, tool, rest, others);
    }
}

// The work of a seat beside that of the others.
#[cycle(seats)]
fn work_beside<R: Threads + Sync, C: Sync, T: Send, S: ToolSeat<C, T> + Send, G: Gate + Sync>(
    rt: &R,
    gate: &G,
    shared: &C,
    first: &mut S,
    tool: &mut T,
    rest: &mut [S],
    others: &mut [T],
)
    requires first { S.can_work shared.now first.old }
    requires rest { All (S.can_work shared.now) rest.old }
    requires tools { length others.old ≡ length rest.old }
    ensures first { S.worked shared.now first.old first.new }
    ensures tool { S.used tool.old tool.new }
    ensures rest { AllZip (S.worked shared.now) rest.old rest.new }
    ensures others { AllZip S.used others.old others.new }
{
    join_mut(
        rt,
        &mut || first.work(shared, tool, gate),
        &mut ||
            requires { IsSync R.row × IsSync G.row × IsSync C.row × IsSend S.row × IsSend T.row
                × All (S.can_work shared.now) rest.now × (length others.now ≡ length rest.now) }
            ensures { AllZip (S.worked shared.entry.now) rest.entry.now rest.exit.now
                × AllZip S.used others.entry.now others.exit.now }
        { seats_with_tools(rt, gate, shared, rest, others) },
    );
}
