// What is drawn.
ghost use Rattle.std.specs.Prelude.{◌≡◌, ◌<◌, IfOk, IsTrue, string_bytes};
ghost use Rattle.rule_spec.specs.IsRule.{is_number};
ghost use Rattle.session_spec.specs.Sample as spec;

use crate::rules::rule_of;
use dnr_base::NoMemory;
use dnr_rules::Rule;
use rand_core::utils::NextWord;
use rand_pcg::Lcg64Xsh32;
use std::alloc::Global;

// The stream of the generator.
const STREAM: u64 = 54;

// How many hosts there are.
const HOSTS: u32 = 1_000;

pub(crate) fn generator_of(seed: u64) -> Lcg64Xsh32
    ensures { result ≡ spec.generator_of seed }
{
    Lcg64Xsh32::new(seed, STREAM)
}

// A number below this one.
#[tactic(auto, unfolding(session_spec::specs::Sample::draw))]
pub(crate) fn draw(generator: &mut Lcg64Xsh32, below: u32) -> u32
    requires { 0 < below }
    ensures value { result ≡ (spec.draw below generator.old).0 }
    ensures next { generator.new ≡ (spec.draw below generator.old).1 }
    ensures bound { result < below }
{
    generator.next_word() % below
}

// The rule of this id, for a host, with a priority and an action.
#[tactic(auto, unfolding(session_spec::specs::Sample::drawn_rule))]
pub(crate) fn draw_rule(
    alloc: Global,
    id: u32,
    generator: &mut Lcg64Xsh32,
) -> Result<Rule, NoMemory>
    requires { IsTrue (is_number id) }
    ensures rule { IfOk result (λ rule. rule ≡ (spec.drawn_rule id generator.old).0) }
    ensures next { generator.new ≡ (spec.drawn_rule id generator.old).1 }
{
    let host = draw(generator, HOSTS);
    let priority = 1 + draw(generator, 4);
    let choice = draw(generator, 4);
    rule_of(alloc, id, host, priority, choice)
}

// The rules of the ids from 1 to this number.
#[tactic(auto, using(crate::proofs::Steps::more_rules))]
pub(crate) fn draw_rules(
    alloc: Global,
    count: u32,
    generator: &mut Lcg64Xsh32,
) -> Result<Vec<Rule>, NoMemory>
    requires { count < 2147483647 }
    ensures rules { IfOk result (λ rules. rules.items ≡ (spec.drawn_rules count generator.old).0) }
    ensures next { IfOk result (λ rules. generator.new ≡ (spec.drawn_rules count generator.old).1) }
{
    let mut rules = Vec::new(alloc);
    for drawn in 0..count {
        rules.push(draw_rule(alloc, drawn + 1, generator)?)?;
    }
    Ok(rules)
}

// The text of a URL, of a host and a page.
#[tactic(auto, unfolding(session_spec::specs::Sample::drawn_url))]
pub(crate) fn draw_url(alloc: Global, generator: &mut Lcg64Xsh32) -> Result<String, NoMemory>
    ensures text { IfOk result (λ text. string_bytes text ≡ (spec.drawn_url generator.old).0) }
    ensures next { generator.new ≡ (spec.drawn_url generator.old).1 }
{
    let host = draw(generator, HOSTS);
    let page = draw(generator, 100);
    Ok(format!(in alloc; "http://h{host}.example/p{page}")?)
}
