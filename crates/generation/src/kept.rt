ghost use Rattle.std.specs.Prelude.{◌≡◌, ℕ, Option, IsTrue, OnOk, max};
ghost use Rattle.generation.specs.Kept as spec;
ghost use Rattle.rule_spec.specs.Access.{has_access};

use crate::access::Access;
use crate::live::Live;
use dnr_base::{Candidate, NoMemory, Request, Verb};
use precedence::beats;
use ruleset_store::InstalledExtension;
use std::alloc::Global;
use std::marker::Model;

// A candidate that may decide, with the place of the frame by which it reaches the request, if it is by one.
#[derive(Drop)]
pub(crate) struct Found<'a> {
    pub live: Live<'a>,
    pub candidate: Candidate,
    pub frame: Option<u32>,
}

impl<'a> Model for Found<'a> {
    ghost use Rattle.generation.specs.Kept as spec;

    ghost Value = { spec.Found };

    ghost view = { λ f. record { live = f.live; candidate = f.candidate; frame = f.frame } };
}

// What is kept of an extension while its rules are walked: of its candidates the one that decides so far, those
// that change headers, and the greatest priority of those that allow.
#[derive(Drop)]
pub(crate) struct Kept<'a> {
    pub name: &'a str,
    pub age: u32,
    pub access: Access<'a>,
    pub best: Option<Found<'a>>,
    pub changing: Vec<Live<'a>>,
    pub allowed: u32,
}

impl<'a> Model for Kept<'a> {
    ghost use Rattle.generation.specs.Kept as spec;

    ghost Value = { spec.Kept };

    ghost view = { λ k. record {
      name = k.name.now;
      age = k.age;
      access = k.access;
      best = k.best;
      changing = k.changing.items;
      allowed = k.allowed;
    } };
}

// The better of two candidates, where the first is the earlier.
fn better<'a>(best: Option<Found<'a>>, next: Found<'a>) -> Option<Found<'a>>
    ensures { result ≡ spec.better_of spec.is_stronger best.entry next.entry }
{
    match best {
        Some(best) if !beats(&next.candidate, &best.candidate) => Some(best),
        _ => Some(next),
    }
}

fn greater(a: u32, b: u32) -> u32
    ensures { result ≡ max a b }
{
    if a < b { b } else { a }
}

impl<'a> Kept<'a> {
    // What is kept of the extension, which has this age, before its first rule.
    pub(crate) fn new(
        alloc: Global,
        extension: &'a InstalledExtension,
        age: u32,
        request: &'a Request,
    ) -> Kept<'a>
        ensures { result
            ≡ spec.nothing_of extension.now.name age (has_access extension.now.access request.now) }
    {
        Kept {
            name: extension.name(),
            age,
            access: Access::of(extension, request),
            best: None,
            changing: Vec::new(alloc),
            allowed: 0,
        }
    }

    // Whether what is kept stays as it is with a candidate of this verdict.
    #[tactic(auto, using(crate::proofs::Outdone::deciding_outdone))]
    fn outdoes_deciding(&self, live: &Live<'_>, verb: Verb) -> bool
        ensures { IsTrue result → (frame : Option ℕ) → spec.with_deciding self.now live.now verb frame ≡ self.now }
    {
        match &self.best {
            Some(best) => {
                live.allowed_priority() <= self.allowed
                    && !beats(&live.candidate(verb), &best.candidate)
            }
            None => false,
        }
    }

    // Whether what is kept stays as it is, be the rule a candidate or not. Then it need not be tested.
    pub(crate) fn outdoes(&self, live: &Live<'_>) -> bool
        ensures { IsTrue result → (frame : Option ℕ) → spec.with_candidate self.now live.now frame ≡ self.now }
    {
        if self.best.is_none() {
            // Most rules of most requests: their action is not looked at.
            return false;
        }
        match live.verb() {
            Some(verb) => self.outdoes_deciding(live, verb),
            None => false,
        }
    }

    // Takes in a candidate that gives this verdict, which reaches the request by this frame, if by one.
    fn add_deciding(&mut self, live: Live<'a>, verb: Verb, frame: Option<u32>)
        ensures { self.new ≡ spec.with_deciding self.old live.entry verb frame }
    {
        self.allowed = greater(live.allowed_priority(), self.allowed);
        let candidate = live.candidate(verb);
        self.best = better(
            self.best.take(),
            Found {
                live,
                candidate,
                frame,
            },
        );
    }

    // Takes in a candidate that changes headers.
    fn add_changing(&mut self, live: Live<'a>) -> Result<(), NoMemory>
        ensures { OnOk result (self.new ≡ spec.with_changing self.old live.entry) }
    {
        self.changing.push(live)?;
        Ok(())
    }

    // Takes in a candidate, which reaches the request by this frame, if by one.
    pub(crate) fn add(&mut self, live: Live<'a>, frame: Option<u32>) -> Result<(), NoMemory>
        ensures { OnOk result (self.new ≡ spec.with_candidate self.old live.entry frame) }
    {
        match live.verb() {
            Some(verb) => {
                self.add_deciding(live, verb, frame);
                Ok(())
            }
            None => self.add_changing(live),
        }
    }
}
