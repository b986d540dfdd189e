// The answers of a generation, counted in a ledger that nobody reads.
ghost use Rattle.std.specs.Prelude.{◌≡◌, ◌≤◌, length, IfOk};
ghost use Rattle.dnr_base.specs.Request.{max_frames};
ghost use Rattle.explain_spec.specs.Explanation.{explanation_of};
ghost use Rattle.generation.specs.Refused.{Ends};
ghost use Rattle.rule_spec.specs.PatternRule.{NamesPattern};
ghost use Rattle.rule_spec.specs.Scan.{scan};

use crate::{DecideRefusal, Generation};
use dnr_base::{Request, Steps};
use dnr_verdict::{Explanation, Verdict};
use regex_host::RegexHost;
use std::alloc::Global;
use std::sync::ledger::{Blank, Ledger};

pub(crate) fn verdict_over<H: RegexHost, L: Ledger>(
    alloc: Global,
    generation: &Generation,
    request: &Request,
    host: &mut H,
    blank: Blank,
) -> Result<Verdict, DecideRefusal>
    requires frames { length request.now.frames ≤ max_frames }
    requires name { blank.name ≡ L.name }
    requires parts { blank.parts ≡ L.parts }
    requires one { blank.parts ≡ 1 }
    ensures verdict { IfOk result (λ verdict. verdict ≡ scan generation.now.suffixes generation.now.state request.now) }
    ensures ends { Ends (NamesPattern generation.now.state) (H.faults host.old) (H.faults host.new) result }
{
    let mut steps = Steps::<L>::open(blank);
    generation.decide(alloc, request, host, &mut steps)
}

pub(crate) fn explanation_over<H: RegexHost, L: Ledger>(
    alloc: Global,
    generation: &Generation,
    request: &Request,
    host: &mut H,
    blank: Blank,
) -> Result<Explanation, DecideRefusal>
    requires frames { length request.now.frames ≤ max_frames }
    requires name { blank.name ≡ L.name }
    requires parts { blank.parts ≡ L.parts }
    requires one { blank.parts ≡ 1 }
    ensures explanation { IfOk result (λ explanation. explanation
        ≡ explanation_of generation.now.suffixes generation.now.state request.now) }
    ensures ends { Ends (NamesPattern generation.now.state) (H.faults host.old) (H.faults host.new) result }
{
    let mut steps = Steps::<L>::open(blank);
    generation.explain(alloc, request, host, &mut steps)
}
