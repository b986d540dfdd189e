ghost use Rattle.std.specs.Prelude.{◌≡◌, IfOk, true};
ghost use Rattle.dnr_spec.specs.Order.{prevails};
ghost use Rattle.generation.specs.Choice as choice;
ghost use Rattle.generation.specs.Kept.{better_of};
ghost use Rattle.rule_spec.specs.Scan as spec;

use crate::kept::Kept;
use crate::live::Live;
use dnr_base::{NoMemory, RuleName, Verb, Winner};
use precedence::across;
use std::alloc::Global;
use std::marker::Model;

// What an extension says of a request: its rule, and the verdict that it gives.
#[derive(Drop)]
pub(crate) struct Decision<'a> {
    pub extension: &'a str,
    pub age: u32,
    pub live: Live<'a>,
    pub verb: Verb,
}

impl<'a> Model for Decision<'a> {
    ghost use Rattle.rule_spec.specs.Scan as spec;

    ghost Value = { spec.Decision };

    ghost view = { λ d. record { extension = d.extension.now; age = d.age; live = d.live; verb = d.verb } };
}

// Whether the later of two winners goes before the earlier.
#[tactic(auto, using(crate::proofs::Best::across_two))]
fn goes_before(later: Winner, earlier: Winner) -> bool
    ensures { result ≡ prevails later earlier }
{
    across(&[earlier, later]) == Some(1)
}

impl<'a> Decision<'a> {
    // What is kept of an extension says this.
    fn of(kept: &Kept<'a>) -> Option<Decision<'a>>
        ensures { result ≡ choice.decision_in kept.now }
    {
        match &kept.best {
            Some(found) => Some(Decision {
                extension: kept.name,
                age: kept.age,
                live: found.live.again(),
                verb: found.candidate.action,
            }),
            None => None,
        }
    }

    fn winner(&self) -> Winner
        ensures { result ≡ spec.winner_seen self.now }
    {
        Winner {
            action: self.verb,
            age: self.age,
        }
    }

    // The rule's name.
    pub(crate) fn rule(&self, alloc: Global) -> Result<RuleName, NoMemory>
        ensures { IfOk result (λ name. name ≡ spec.name_of self.now.extension self.now.live) }
    {
        self.live.name(alloc, self.extension)
    }
}

// The better of what is kept and what one more extension says, if it says anything.
fn better<'a>(best: Option<Decision<'a>>, next: Option<Decision<'a>>) -> Option<Decision<'a>>
    ensures { result ≡ choice.with_decision best.entry next.entry }
{
    let Some(next) = next else {
        return best;
    };
    match best {
        Some(best) if !goes_before(next.winner(), best.winner()) => Some(best),
        _ => Some(next),
    }
}

// What decides across extensions.
pub(crate) fn deciding<'a>(kepts: &[Kept<'a>]) -> Option<Decision<'a>>
    ensures { result ≡ choice.deciding_in kepts.now }
{
    let mut best = None;
    for kept in kepts {
        best = better(best, Decision::of(kept));
    }
    best
}
