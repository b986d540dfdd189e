ghost use Rattle.std.specs.Prelude.{◌≡◌, ◌≤◌, ◌+◌, length, IfSome, IfOk, MatchOption};
ghost use mathlib.Core.List.{IsPrefix};
ghost use Rattle.dnr_base.specs.Request.{max_frames};
ghost use Rattle.explain_spec.specs.Explanation.{explanation_of};
ghost use Rattle.generation.specs.Refused.{Ends};
ghost use Rattle.index_spec.specs.Pairs.{pairs_of};
ghost use Rattle.left_right.specs.Sides.{view};
ghost use Rattle.rule_spec.specs.PatternRule.{NamesPattern};
ghost use Rattle.rule_spec.specs.Scan.{scan};
ghost use Rattle.update_spec.specs.Entries.{replay};

use crate::copy::Shown;
use crate::rule::{Begins, Entries, GoesOn};
use crate::{Entry, Pair};
use dnr_base::{Request, Steps};
use dnr_verdict::{Explanation, Verdict};
use generation::DecideRefusal;
use history::Log;
use left_right::reader::Reader;
use regex_host::RegexHost;
use std::alloc::Global;
use std::sync::ledger::Ledger;

// The place of a pass among the readers.
pub type CopyReader<P> = Reader<Shown, Entries, Begins<P>>;

// What was decided, and the log of what was in force.
type Decided = (Log<Entry>, Result<Verdict, DecideRefusal>);

// What was explained, and the log of what was in force.
type Explanations = (Log<Entry>, Result<Explanation, DecideRefusal>);

// Enters what is published, decides by it, and leaves it.
pub fn look<P: Pair, H: RegexHost, L: Ledger>(
    reader: CopyReader<P>,
    alloc: Global,
    request: &Request,
    host: &mut H,
    steps: &mut Steps<L>,
) -> (CopyReader<P>, Option<Decided>)
    requires { length request.now.frames ≤ max_frames }
    ensures later { IsPrefix (view reader.place) (view result.0.place) }
    ensures log { IfSome result.1 (λ found. found.0 ≡ record { book = P.book; list = view result.0.place }) }
    ensures verdict { IfSome result.1 (λ found. IfOk found.1 (λ verdict. verdict
        ≡ scan P.opening.suffixes (replay P.opening.state found.0.list) request.now)) }
    ensures ends { MatchOption result.1 (H.faults host.new ≡ H.faults host.old)
        (λ found. Ends (NamesPattern (replay P.opening.state found.0.list)) (H.faults host.old) (H.faults host.new) found.1) }
    ensures bound { MatchOption result.1 (steps.new ≡ steps.old)
        (λ found. steps.new ≤ steps.old + pairs_of (replay P.opening.state found.0.list) request.now) }
{
    match reader.enter_as::<GoesOn<P>>() {
        Ok(reading) => {
            let shown = reading.get();
            let log = shown.log().again();
            let decided = shown.generation().decide(alloc, request, host, steps);
            (reading.leave(), Some((log, decided)))
        }
        Err(reader) => (reader, None),
    }
}

// Enters what is published, explains by it, and leaves it.
pub fn look_into<P: Pair, H: RegexHost, L: Ledger>(
    reader: CopyReader<P>,
    alloc: Global,
    request: &Request,
    host: &mut H,
    steps: &mut Steps<L>,
) -> (CopyReader<P>, Option<Explanations>)
    requires { length request.now.frames ≤ max_frames }
    ensures later { IsPrefix (view reader.place) (view result.0.place) }
    ensures log { IfSome result.1 (λ found. found.0 ≡ record { book = P.book; list = view result.0.place }) }
    ensures explanation { IfSome result.1 (λ found. IfOk found.1 (λ explanation. explanation
        ≡ explanation_of P.opening.suffixes (replay P.opening.state found.0.list) request.now)) }
    ensures ends { MatchOption result.1 (H.faults host.new ≡ H.faults host.old)
        (λ found. Ends (NamesPattern (replay P.opening.state found.0.list)) (H.faults host.old) (H.faults host.new) found.1) }
    ensures bound { MatchOption result.1 (steps.new ≡ steps.old)
        (λ found. steps.new ≤ steps.old + pairs_of (replay P.opening.state found.0.list) request.now) }
{
    match reader.enter_as::<GoesOn<P>>() {
        Ok(reading) => {
            let shown = reading.get();
            let log = shown.log().again();
            let explained = shown.generation().explain(alloc, request, host, steps);
            (reading.leave(), Some((log, explained)))
        }
        Err(reader) => (reader, None),
    }
}

// Enters what is published, and leaves it.
pub fn peek<P: Pair>(reader: CopyReader<P>) -> (CopyReader<P>, Option<Log<Entry>>)
    ensures later { IsPrefix (view reader.place) (view result.0.place) }
    ensures log { IfSome result.1 (λ log. log ≡ record { book = P.book; list = view result.0.place }) }
{
    match reader.enter_as::<GoesOn<P>>() {
        Ok(reading) => {
            let log = reading.get().log().again();
            (reading.leave(), Some(log))
        }
        Err(reader) => (reader, None),
    }
}
