// A whole session.
ghost use Rattle.std.specs.Prelude.{◌≡◌, ◌∷◌, [], Ok, IfOk, OnOk};
ghost use Rattle.session_spec.specs.Sample as spec;
ghost use Rattle.session_sample.specs.Seen.{IsSummary, progress_of};
ghost use Rattle.update_spec.specs.Entries.{opening};

use crate::counts::nothing_asked;
use crate::draws::{draw_rules, generator_of};
use crate::session::Session;
use dnr_base::{NoMemory, Text};
use dnr_rules::Rule;
use dnr_words::Sample;
use generation::{Extension, Generation, RuleSet};
use regex_host::PackHost;
use session_spec::Tally;
use std::alloc::Global;
use suffix_list::SuffixList;

/// What a session is summed up by.
#[derive(Clone, Copy, Debug, PartialEq, Eq)]
pub struct Summary {
    /// What its requests were answered.
    pub tally: Tally,
    /// How many updates were accepted.
    pub generation: u32,
}

/// Holds the session of a sample.
///
/// `NoMemory`: memory ran out. Nothing else ends it: the limits of a sample are within those of rules and updates, and no
/// rule has a pattern.
pub fn summary_of(alloc: Global, sample: &Sample) -> Result<Summary, NoMemory>
    ensures { IfOk result (IsSummary sample.now) }
{
    let mut session = begin(alloc, sample)?;
    hold(alloc, sample, &mut session)?;
    Ok(Summary {
        tally: session.tally,
        generation: session.generation.number(),
    })
}

// The session before its first request.
fn begin(alloc: Global, sample: &Sample) -> Result<Session, NoMemory>
    ensures opened { IfOk result (λ session. opening (spec.extension_of (spec.drawn_rules sample.now.rules (spec.generator_of sample.now.seed)).0 ∷ [])
        ≡ Ok session.generation.state) }
    ensures generator { IfOk result (λ session. session.generator
        ≡ (spec.drawn_rules sample.now.rules (spec.generator_of sample.now.seed)).1) }
    ensures tally { IfOk result (λ session. session.tally ≡ spec.nothing_asked) }
    ensures suffixes { IfOk result (λ session. session.generation.suffixes ≡ []) }
{
    let mut generator = generator_of(sample.seed());
    let rules = draw_rules(alloc, sample.rules(), &mut generator)?;
    Ok(Session {
        generator,
        generation: opened(alloc, rules)?,
        tally: nothing_asked(),
        host: PackHost::new(alloc)?,
    })
}

// The generation in which the extension of these rules is installed.
fn opened(alloc: Global, rules: Vec<Rule>) -> Result<Generation, NoMemory>
    ensures installed { IfOk result (λ generation. opening (spec.extension_of rules.items ∷ []) ≡ Ok generation.state) }
    ensures suffixes { IfOk result (λ generation. generation.suffixes ≡ []) }
{
    let mut extensions = Vec::new(alloc);
    extensions.push(extension_of(alloc, rules)?)?;
    match Generation::first(alloc, no_suffixes(alloc)?, extensions) {
        Ok(generation) => Ok(generation),
        Err(_) => Err(NoMemory),
    }
}

fn extension_of(alloc: Global, rules: Vec<Rule>) -> Result<Extension, NoMemory>
    ensures { IfOk result (λ extension. extension ≡ spec.extension_of rules.items) }
{
    let id = Text::build(String::from_str(alloc, "s")?);
    let mut sets = Vec::new(alloc);
    sets.push(RuleSet::build(alloc, id, true, rules, Vec::new(alloc))?)?;
    let name = Text::build(String::from_str(alloc, "sample")?);
    Extension::build(alloc, name, sets, None)
}

// A list without rules.
#[tactic(auto, using(crate::proofs::NoSuffixes::no_rules))]
fn no_suffixes(alloc: Global) -> Result<SuffixList, NoMemory>
    ensures { IfOk result (λ list. list ≡ []) }
{
    match SuffixList::read(alloc, b"") {
        Ok(list) => Ok(list),
        Err(_) => Err(NoMemory),
    }
}

// Its rounds, of which each but the first begins with an update.
#[tactic(auto, using(crate::proofs::Steps::more_rounds))]
fn hold(alloc: Global, sample: &Sample, session: &mut Session) -> Result<(), NoMemory>
    requires { session.old.generation.suffixes ≡ [] }
    ensures { OnOk result (progress_of session.new
        ≡ spec.rounds_to sample.now sample.now.updates (progress_of session.old)) }
{
    session.ask_times(alloc, asked_in(sample, 0))?;
    for before in 0..sample.updates() {
        session.update(alloc, before + 1)?;
        session.ask_times(alloc, asked_in(sample, before + 1))?;
    }
    Ok(())
}

// How many requests are in the round of this number.
fn asked_in(sample: &Sample, round: u32) -> u64
    ensures { result ≡ spec.asked_in sample.now round }
{
    let rounds = u64::from(sample.updates()) + 1;
    let requests = u64::from(sample.requests());
    let more = u64::from(round) < requests % rounds;
    requests / rounds + u64::from(more)
}
