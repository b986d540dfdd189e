//! What passes answer, with steps that are counted for nobody, and what a writer publishes.
ghost use Rattle.std.specs.Prelude.{◌≡◌, ◌<◌, ◌≤◌, length};
ghost use Rattle.dnr_base.specs.Request.{max_frames};

use dnr_base::{Request, Steps};
use generation::{Outcome, Update};
use published::{Pair, ReaderPass, Writer};
use regex_host::PackHost;
use std::alloc::Global;
use std::marker::Brand;
use std::sync::Wait;
use std::sync::ledger::{Blank, Ledger};

/// After how many updates a request was decided, and how.
pub type Line = (u32, Outcome);

/// What the pass decides, if it is not refused.
pub fn answered<P: Pair>(
    alloc: Global,
    pass: &mut ReaderPass<P>,
    request: &Request,
    host: &mut PackHost,
) -> Option<Line>
    requires { length request.now.frames ≤ max_frames }
{
    decided::<P, Brand>(alloc, pass, request, host, Blank::new(1))
}

fn decided<P: Pair, L: Ledger>(
    alloc: Global,
    pass: &mut ReaderPass<P>,
    request: &Request,
    host: &mut PackHost,
    blank: Blank,
) -> Option<Line>
    requires frames { length request.now.frames ≤ max_frames }
    requires name { blank.name ≡ L.name }
    requires parts { blank.parts ≡ L.parts }
    requires one { blank.parts ≡ 1 }
{
    let mut steps = Steps::<L>::open(blank);
    let answer = pass.decide(alloc, request, host, &mut steps).ok()?;
    Some((answer.number, answer.verdict.outcome))
}

/// What the pass explains, if it is not refused.
pub fn explained<P: Pair>(
    alloc: Global,
    pass: &mut ReaderPass<P>,
    request: &Request,
    host: &mut PackHost,
) -> Option<Line>
    requires { length request.now.frames ≤ max_frames }
{
    told::<P, Brand>(alloc, pass, request, host, Blank::new(1))
}

fn told<P: Pair, L: Ledger>(
    alloc: Global,
    pass: &mut ReaderPass<P>,
    request: &Request,
    host: &mut PackHost,
    blank: Blank,
) -> Option<Line>
    requires frames { length request.now.frames ≤ max_frames }
    requires name { blank.name ≡ L.name }
    requires parts { blank.parts ≡ L.parts }
    requires one { blank.parts ≡ 1 }
{
    let mut steps = Steps::<L>::open(blank);
    let told = pass.explain(alloc, request, host, &mut steps).ok()?;
    Some((told.number, told.explanation.verdict.outcome))
}

/// Publishes an update, unless it is refused.
pub fn publish<P: Pair, R: Wait>(rt: &R, writer: &mut Writer<P>, update: &Update) -> bool {
    !writer.staged() && writer.prepare(update).is_ok() && writer.swap(rt).is_ok()
}

/// Publishes two updates together, unless one is refused.
pub fn publish_both<P: Pair, R: Wait>(rt: &R, writer: &mut Writer<P>, both: &[Update; 2]) -> bool {
    !writer.staged() && writer.prepare_batch(both).is_ok() && writer.swap(rt).is_ok()
}
