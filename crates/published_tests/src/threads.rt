//! Passes in threads, beside a writer that swaps.
ghost use Rattle.std.specs.Prelude.{◌≡◌, ◌≤◌, length};
ghost use Rattle.dnr_base.specs.Request.{max_frames};

use crate::answers::{Line, answered, publish};
use crate::fixtures::{ADDS, REMOVES, opening, request, update};
use dnr_base::Request;
use generation::{Generation, Outcome, Update};
use lookup_pool::{Gate, NoGate, RoundWriter, Seat, round};
use published::{Note, Opening, Pair, ReaderPass, Writer, publish_pair};
use regex_host::PackHost;
use std::alloc::Global;
use std::marker::Brand;
use std::sync::Wait;
use std::test::Fail;
use std::thread::Threads;

const SWAPS: u32 = 1_000;

const LINES: usize = 5_000;

// A pass, and what it answered.
#[derive(Drop)]
struct Asking<P: Pair> {
    pass: ReaderPass<P>,
    alloc: Global,
    lines: Vec<Line>,
}

// Asks again and again, as long as there is memory.
fn ask<P: Pair>(
    alloc: Global,
    pass: &mut ReaderPass<P>,
    request: &Request,
    host: &mut PackHost,
    lines: &mut Vec<Line>,
)
    requires { length request.now.frames ≤ max_frames }
{
    for _ in 0..LINES {
        if let Some(line) = answered(alloc, pass, request, host) {
            let _ = lines.push(line);
        }
    }
}

impl<P: Pair> Seat for Asking<P> {
    ghost use Rattle.std.specs.Prelude.{⊤};

    ghost can_work = { λ s. ⊤ };

    ghost worked = { λ s t. ⊤ };

    fn is_idle(&self) -> bool {
        false
    }

    fn work<G: Gate>(&mut self, _gate: &G) {
        let Some(request) = request(self.alloc) else {
            return;
        };
        let Ok(mut host) = PackHost::new(self.alloc) else {
            return;
        };
        ask(
            self.alloc,
            &mut self.pass,
            &request,
            &mut host,
            &mut self.lines,
        );
    }
}

// A writer, and the two updates that it publishes by turns.
struct Swapping<P: Pair> {
    writer: Writer<P>,
    adds: Update,
    removes: Update,
}

impl<P: Pair> RoundWriter for Swapping<P> {
    ghost use Rattle.std.specs.Prelude.{⊤};

    ghost can_write = { λ s. ⊤ };

    ghost wrote = { λ s t. ⊤ };

    fn is_idle(&self) -> bool {
        false
    }

    fn write<R: Wait, G: Gate>(&mut self, rt: &R, _gate: &G) {
        for number in 0..SWAPS {
            if number % 2 == 0 {
                publish(rt, &mut self.writer, &self.adds);
            } else {
                publish(rt, &mut self.writer, &self.removes);
            }
        }
    }
}

// What the numbers and the answers of a pass have to be: after an odd number of updates the rule is there.
fn is_in_order(lines: &[Line]) -> bool {
    let mut seen = 0;
    for (number, outcome) in lines {
        let wanted = if number % 2 == 1 {
            Outcome::Block
        } else {
            Outcome::None
        };
        if *number < seen || *number > SWAPS || *outcome != wanted {
            return false;
        }
        seen = *number;
    }
    lines.len() == LINES
}

// How many passes there are of which all lines are in order, and which learn at last what the writer published.
fn passes_in_order<P: Pair + Send + Sync, R: Threads + Wait + Sync>(
    rt: &R,
    alloc: Global,
    opened: Opening,
    first: Generation,
    adds: Update,
    removes: Update,
) -> Option<(u32, u32)>
    requires book { opened ≡ P.book }
    requires opening { first ≡ P.opening }
{
    let mut seats = Vec::with_capacity(alloc, 2).ok()?;
    let (writer, passes) = publish_pair::<P>(alloc, opened, first, 2).ok()?;
    for pass in passes {
        let _ = seats.push(Asking {
            pass,
            alloc,
            lines: Vec::new(alloc),
        });
    }
    let mut swapping = Swapping {
        writer,
        adds,
        removes,
    };
    round(rt, &mut swapping, seats.as_mut_slice(), &NoGate);
    let Swapping {
        writer,
        adds: _,
        removes: _,
    } = swapping;
    let mut in_order = 0_u32;
    for seat in seats.iter_mut() {
        if is_in_order(&seat.lines) && seat.pass.learn(writer.note()) {
            in_order = in_order.saturating_add(1);
        }
    }
    let number = writer.number();
    writer.close(rt);
    Some((in_order, number))
}

#[test]
fn passes_decide_beside_a_writer_that_swaps(rt: HostRuntime) -> Result<(), Fail> {
    let alloc = rt.alloc();
    let first = opening(alloc, Some("a")).ok_or("refused")?;
    let adds = update(alloc, ADDS).ok_or("no update")?;
    let removes = update(alloc, REMOVES).ok_or("no update")?;
    let seen = passes_in_order::<Brand, _>(&rt, alloc, Opening::new(), first, adds, removes);
    assert_eq!(rt; seen, Some((2, SWAPS)));
    Ok(())
}

fn is_sent<T: Send>() {}

fn is_shared<T: Send + Sync>() {}

#[test]
fn threads_may_have_writers_passes_and_notes(_rt: HostRuntime) -> Result<(), Fail> {
    is_sent::<Writer<Brand>>();
    is_sent::<ReaderPass<Brand>>();
    is_shared::<Note<Brand>>();
    is_shared::<Generation>();
    Ok(())
}
