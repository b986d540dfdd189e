// A session on its way.
ghost use Rattle.std.specs.Prelude.{◌≡◌, ◌<◌, ◌∷◌, [], Ok, IfOk, OnOk, IsTrue, length};
ghost use Rattle.dnr_base.specs.Request.{max_frames};
ghost use Rattle.rule_spec.specs.IsRule.{is_number};
ghost use Rattle.rule_spec.specs.Scan.{scan};
ghost use Rattle.ruleset_store.specs.Seen.{update_seen};
ghost use Rattle.session_spec.specs.Sample as spec;
ghost use Rattle.session_sample.specs.Seen.{progress_of};
ghost use Rattle.update_spec.specs.Entries.{one};

use crate::counts::{with_outcome, with_request};
use crate::draws::{draw_rule, draw_url};
use dnr_base::{Items, Kind, Method, NoMemory, Request, Text, View};
use dnr_rules::Rule;
use dnr_spec::ViewRefusal;
use generation::{Generation, Refusal, Update};
use rand_pcg::Lcg64Xsh32;
use regex_host::PackHost;
use rule_spec::Outcome;
use ruleset_store::SharedRule;
use session_spec::Tally;
use std::alloc::Global;
use url_view::parse;

// The generator, what is in force, what was counted, and a host that is asked for nothing: no rule has a pattern.
#[derive(Drop)]
pub(crate) struct Session {
    pub(crate) generator: Lcg64Xsh32,
    pub(crate) generation: Generation,
    pub(crate) tally: Tally,
    pub(crate) host: PackHost,
}

impl Session {
    // Asks for so many requests.
    #[tactic(auto, using(crate::proofs::Steps::more_asked))]
    pub(crate) fn ask_times(&mut self, alloc: Global, count: u64) -> Result<(), NoMemory>
        requires { self.old.generation.suffixes ≡ [] }
        ensures asked { OnOk result (progress_of self.new ≡ spec.asked_times count (progress_of self.old)) }
        ensures suffixes { self.new.generation.suffixes ≡ [] }
    {
        for _ in 0..count {
            self.ask(alloc)?;
        }
        Ok(())
    }

    // Draws a request, and counts what it is answered.
    #[tactic(auto, unfolding(session_spec::specs::Sample::asked))]
    fn ask(&mut self, alloc: Global) -> Result<(), NoMemory>
        requires { self.old.generation.suffixes ≡ [] }
        ensures asked { OnOk result (progress_of self.new ≡ spec.asked (progress_of self.old)) }
        ensures suffixes { self.new.generation.suffixes ≡ [] }
    {
        let url = draw_url(alloc, &mut self.generator)?;
        let tally = with_request(self.tally)?;
        self.tally = match parse(alloc, url.as_str()) {
            Ok(view) => self.answered(alloc, tally, view)?,
            Err(ViewRefusal::NoMemory) => return Err(NoMemory),
            Err(_) => tally,
        };
        Ok(())
    }

    // The counts with the verdict on the request to this URL.
    fn answered(&mut self, alloc: Global, tally: Tally, view: View) -> Result<Tally, NoMemory>
        requires { self.old.generation.suffixes ≡ [] }
        ensures counted { IfOk result (λ new. new ≡ spec.with_answer self.old.generation.state (Ok view) tally) }
        ensures generator { self.new.generator ≡ self.old.generator }
        ensures generation { self.new.generation ≡ self.old.generation }
    {
        let request = request_to(alloc, tally.requests, view);
        let outcome = outcome_of(alloc, &self.generation, &request, &mut self.host)?;
        with_outcome(tally, outcome)
    }

    // Draws the dynamic rule of this id, and adds it.
    #[tactic(auto, unfolding(session_spec::specs::Sample::updated), using(crate::proofs::Updates::accepted, crate::proofs::Updates::refused))]
    pub(crate) fn update(&mut self, alloc: Global, id: u32) -> Result<(), NoMemory>
        requires id { IsTrue (is_number id) }
        requires suffixes { self.old.generation.suffixes ≡ [] }
        ensures updated { OnOk result (progress_of self.new ≡ spec.updated id (progress_of self.old)) }
        ensures suffixes { self.new.generation.suffixes ≡ [] }
    {
        let rule = draw_rule(alloc, id, &mut self.generator)?;
        let update = update_with(alloc, rule)?;
        match self.generation.next(alloc, &update) {
            Ok(next) => self.generation = next,
            Err(Refusal::NoMemory) => return Err(NoMemory),
            Err(_refused) => {}
        }
        Ok(())
    }
}

// The update that adds the rule.
fn update_with(alloc: Global, rule: Rule) -> Result<Update, NoMemory>
    ensures { IfOk result (λ update. one (update_seen update) ≡ spec.adds rule) }
{
    let mut rules = Vec::new(alloc);
    rules.push(rule)?;
    Ok(Update::Dynamic {
        extension: Text::build(String::from_str(alloc, "sample")?),
        remove: Items::build(Vec::new(alloc)),
        add: Items::build(SharedRule::all_of(alloc, rules)?),
    })
}

// The request of this number for a script.
fn request_to(alloc: Global, number: u32, view: View) -> Request
    ensures { result ≡ spec.request_to number view }
{
    Request {
        line: number,
        view,
        initiator: None,
        kind: Kind::Script,
        method: Method::Get,
        tab: -1,
        frames: Items::build(Vec::new(alloc)),
        request_headers: None,
        response_headers: None,
    }
}

// What becomes of a request. No steps are counted.
fn outcome_of(
    alloc: Global,
    generation: &Generation,
    request: &Request,
    host: &mut PackHost,
) -> Result<Outcome, NoMemory>
    requires { request.now.frames ≡ [] }
    ensures { IfOk result (λ outcome. outcome
        ≡ (scan generation.now.suffixes generation.now.state request.now).outcome) }
{
    match generation.decide_uncounted(alloc, request, host) {
        Ok(verdict) => Ok(verdict.outcome),
        Err(_) => Err(NoMemory),
    }
}
