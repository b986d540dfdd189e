//! What a pass answers to a line that asks a seat.
ghost use Rattle.std.specs.Prelude.{◌≡◌, ◌≤◌, length, true, IfOk, OnErr, IsTrue, IsFalse};
ghost use mathlib.Core.List.{IsPrefix};
ghost use Rattle.dnr_base.specs.Faults.{HasCauseOf, Rose};
ghost use Rattle.dnr_base.specs.Request.{max_frames};
ghost use Rattle.explain_spec.specs.Explanation.{explanation_of};
ghost use Rattle.published.specs.Refused.{EndsAfter};
ghost use Rattle.rule_spec.specs.Scan.{scan};
ghost use Rattle.session_rounds.specs.Lines.{IsLine, is_asking, read_seen};
ghost use Rattle.session_seats.specs.Told.{IsTold, SaysMore};
ghost use Rattle.update_spec.specs.Entries.{replay};

use crate::answer_log::AnswerLog;
use crate::told::Told;
use dnr_base::{NoMemory, Request, Steps};
use published::{Answer, Explained, Pair, ReadRefusal, ReaderPass};
use regex_host::RegexHost;
use script_read::Command;
use session_rounds::ReadLine;
use std::alloc::Global;
use std::marker::Brand;
use std::sync::ledger::{Blank, Ledger};

/// Keeps what the pass answers to the line at this place, and says whether there was a copy to enter.
pub fn answer_by<P: Pair, H: RegexHost>(
    alloc: Global,
    answers: &mut AnswerLog,
    pass: &mut ReaderPass<P>,
    place: usize,
    line: &ReadLine,
    host: &mut H,
) -> Result<bool, NoMemory>
    requires line { IsLine line.now }
    requires asks { is_asking line.now ≡ true }
    ensures later { IsPrefix pass.old.seen pass.new.seen }
    ensures missed { pass.old.missed ≤ pass.new.missed }
    ensures cause { IfOk result (λ entered. IsFalse entered → Rose pass.old.missed pass.new.missed) }
    ensures says { IfOk result (λ entered. IsTrue entered → SaysMore P.opening place line.now.number
        (read_seen line.now.read) pass.new.seen answers.old answers.new) }
    ensures none { IfOk result (λ entered. IsFalse entered → answers.new ≡ answers.old) }
    ensures kept { OnErr result (answers.new ≡ answers.old) }
    ensures host { H.faults host.old ≤ H.faults host.new }
{
    // The count is a `u64`, so it has not fallen where it rose.
    let _failed = host.faults();
    let told = match told_by(alloc, pass, line, host) {
        Ok(told) => told,
        Err(ReadRefusal::HostFault(number, rule)) => Told::Failed(number, rule),
        Err(ReadRefusal::NotEntered) => return Ok(false),
        Err(ReadRefusal::NoMemory) => return Err(NoMemory),
    };
    answers.push(alloc, place, line.number, &told)?;
    Ok(true)
}

// What the pass decides or explains.
fn told_by<P: Pair, H: RegexHost>(
    alloc: Global,
    pass: &mut ReaderPass<P>,
    line: &ReadLine,
    host: &mut H,
) -> Result<Told, ReadRefusal>
    requires line { IsLine line.now }
    requires asks { is_asking line.now ≡ true }
    ensures later { IsPrefix pass.old.seen pass.new.seen }
    ensures cause { HasCauseOf ReadRefusal.NotEntered pass.old.missed pass.new.missed result }
    ensures told { IfOk result (IsTold P.opening (read_seen line.now.read) pass.new.seen) }
    ensures ends { EndsAfter P.opening pass.new.seen (H.faults host.old) (H.faults host.new) result }
{
    match &line.read {
        Ok(Command::Request(request)) => match verdict_by(alloc, pass, request, host) {
            Ok(answer) => Ok(Told::Decided(answer)),
            Err(refusal) => Err(refusal),
        },
        Ok(Command::Explain(request)) => match explanation_by(alloc, pass, request, host) {
            Ok(answer) => Ok(Told::Explained(answer)),
            Err(refusal) => Err(refusal),
        },
        // Such a line asks no seat.
        Ok(Command::Blank | Command::Sync | Command::Update(_) | Command::Batch(_)) | Err(_) => {
            Err(ReadRefusal::NoMemory)
        }
    }
}

// What the pass decides. No steps are counted.
fn verdict_by<P: Pair, H: RegexHost>(
    alloc: Global,
    pass: &mut ReaderPass<P>,
    request: &Request,
    host: &mut H,
) -> Result<Answer, ReadRefusal>
    requires { length request.now.frames ≤ max_frames }
    ensures later { IsPrefix pass.old.seen pass.new.seen }
    ensures cause { HasCauseOf ReadRefusal.NotEntered pass.old.missed pass.new.missed result }
    ensures number { IfOk result (λ answer. answer.number ≡ length pass.new.seen) }
    ensures verdict { IfOk result (λ answer. answer.verdict
        ≡ scan P.opening.suffixes (replay P.opening.state pass.new.seen) request.now) }
    ensures ends { EndsAfter P.opening pass.new.seen (H.faults host.old) (H.faults host.new) result }
{
    verdict_over::<P, H, Brand>(alloc, pass, request, host, Blank::new(1))
}

fn verdict_over<P: Pair, H: RegexHost, L: Ledger>(
    alloc: Global,
    pass: &mut ReaderPass<P>,
    request: &Request,
    host: &mut H,
    blank: Blank,
) -> Result<Answer, ReadRefusal>
    requires frames { length request.now.frames ≤ max_frames }
    requires name { blank.name ≡ L.name }
    requires parts { blank.parts ≡ L.parts }
    requires one { blank.parts ≡ 1 }
    ensures later { IsPrefix pass.old.seen pass.new.seen }
    ensures cause { HasCauseOf ReadRefusal.NotEntered pass.old.missed pass.new.missed result }
    ensures number { IfOk result (λ answer. answer.number ≡ length pass.new.seen) }
    ensures verdict { IfOk result (λ answer. answer.verdict
        ≡ scan P.opening.suffixes (replay P.opening.state pass.new.seen) request.now) }
    ensures ends { EndsAfter P.opening pass.new.seen (H.faults host.old) (H.faults host.new) result }
{
    let mut steps = Steps::<L>::open(blank);
    pass.decide(alloc, request, host, &mut steps)
}

// What the pass explains. No steps are counted.
fn explanation_by<P: Pair, H: RegexHost>(
    alloc: Global,
    pass: &mut ReaderPass<P>,
    request: &Request,
    host: &mut H,
) -> Result<Explained, ReadRefusal>
    requires { length request.now.frames ≤ max_frames }
    ensures later { IsPrefix pass.old.seen pass.new.seen }
    ensures cause { HasCauseOf ReadRefusal.NotEntered pass.old.missed pass.new.missed result }
    ensures number { IfOk result (λ answer. answer.number ≡ length pass.new.seen) }
    ensures explanation { IfOk result (λ answer. answer.explanation
        ≡ explanation_of P.opening.suffixes (replay P.opening.state pass.new.seen) request.now) }
    ensures ends { EndsAfter P.opening pass.new.seen (H.faults host.old) (H.faults host.new) result }
{
    explanation_over::<P, H, Brand>(alloc, pass, request, host, Blank::new(1))
}

fn explanation_over<P: Pair, H: RegexHost, L: Ledger>(
    alloc: Global,
    pass: &mut ReaderPass<P>,
    request: &Request,
    host: &mut H,
    blank: Blank,
) -> Result<Explained, ReadRefusal>
    requires frames { length request.now.frames ≤ max_frames }
    requires name { blank.name ≡ L.name }
    requires parts { blank.parts ≡ L.parts }
    requires one { blank.parts ≡ 1 }
    ensures later { IsPrefix pass.old.seen pass.new.seen }
    ensures cause { HasCauseOf ReadRefusal.NotEntered pass.old.missed pass.new.missed result }
    ensures number { IfOk result (λ answer. answer.number ≡ length pass.new.seen) }
    ensures explanation { IfOk result (λ answer. answer.explanation
        ≡ explanation_of P.opening.suffixes (replay P.opening.state pass.new.seen) request.now) }
    ensures ends { EndsAfter P.opening pass.new.seen (H.faults host.old) (H.faults host.new) result }
{
    let mut steps = Steps::<L>::open(blank);
    pass.explain(alloc, request, host, &mut steps)
}
