//! Lines that are asked side by side.
ghost use Rattle.std.specs.Prelude.{◌≡◌, ◌<◌};

use crate::cut_line::CutLine;
use script_read::Memo;
use std::alloc::Global;
use std::thread::{Threads, for_each_chunk_mut};

// Fewer lines are read sooner than threads are started.
const FEW: usize = 64;

/// Asks the lines what they ask for, in at most so many threads. They are cut into runs of lines that follow each other,
/// one run a thread, since most requests are asked by whoever asked before.
///
/// Plain lines, those that were asked, few others, and all lines where there is one thread, are left as they are.
pub fn ask_all<R: Threads + Sync>(rt: &R, alloc: Global, threads: usize, lines: &mut [CutLine])
    requires { 0 < threads }
    ensures { lines.new ≡ lines.old }
{
    if 1 < threads && FEW <= lines.len() && are_many(lines) {
        let size = lines.len().div_ceil(threads);
        ask_runs(rt, alloc, size, lines);
    }
}

// Whether they are worth threads.
fn are_many(lines: &[CutLine]) -> bool {
    FEW <= lines.iter().filter(|line| line.wants_asking()).count()
}

// Asks each run of so many lines in a thread of its own.
fn ask_runs<R: Threads + Sync>(rt: &R, alloc: Global, size: usize, lines: &mut [CutLine])
    requires { 0 < size }
    ensures { lines.new ≡ lines.old }
{
    for_each_chunk_mut(rt, lines, size, &|_, run| ask_run(alloc, run));
}

/// Asks lines that follow each other, one after another, but for plain ones and those that were asked.
pub fn ask_run(alloc: Global, lines: &mut [CutLine])
    ensures { lines.new ≡ lines.old }
{
    let mut memo = Memo::new(alloc);
    for line in lines.iter_mut() {
        if line.wants_asking() {
            line.ask(alloc, &mut memo);
        }
    }
}
