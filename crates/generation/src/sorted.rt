ghost use Rattle.std.specs.Prelude.{◌≡◌, ◌++◌, filter, nat_le, reverse, IfOk};
ghost use Rattle.std.specs.Ordering.{is_lt};
ghost use Rattle.generation.specs.Choice as choice;
ghost use Rattle.rule_spec.specs.Scan as spec;

use crate::kept::Kept;
use crate::live::Live;
use dnr_base::{NoMemory, Verb};
use precedence::beats;
use std::alloc::Global;
use std::cmp::Ordering;

// Of rules that change headers the first is offered first. They have no verdict, so any stands for it.
fn comes_before(a: &Live<'_>, b: &Live<'_>) -> bool
    ensures { result ≡ spec.comes_before a.now b.now }
{
    beats(&a.candidate(Verb::Block), &b.candidate(Verb::Block))
}

fn compare(a: &Live<'_>, b: &Live<'_>) -> Ordering
    ensures { is_lt result ≡ spec.comes_before a.now b.now }
{
    if comes_before(a, b) {
        Ordering::Less
    } else if comes_before(b, a) {
        Ordering::Greater
    } else {
        Ordering::Equal
    }
}

// Adds a rule, unless an `allow` outdoes it.
fn add_unless_outdone<'a>(
    mut list: Vec<Live<'a>>,
    allowed: u32,
    live: &Live<'a>,
) -> Result<Vec<Live<'a>>, NoMemory>
    ensures { IfOk result (λ new. new.items ≡ list.entry.items ++ choice.unless_outdone allowed live.now) }
{
    if live.rule.priority() < allowed {
        return Ok(list);
    }
    list.push(live.again())?;
    Ok(list)
}

// The rules that no `allow` outdoes.
fn not_outdone<'a>(
    alloc: Global,
    allowed: u32,
    lives: &[Live<'a>],
) -> Result<Vec<Live<'a>>, NoMemory>
    ensures { IfOk result (λ list. list.items ≡ filter (λ live. nat_le allowed live.rule.priority) lives.now) }
{
    let mut list = Vec::new(alloc);
    for live in lives {
        list = add_unless_outdone(list, allowed, live)?;
    }
    Ok(list)
}

// The same rules, the last first.
fn last_first<'a>(mut lives: Vec<Live<'a>>) -> Vec<Live<'a>>
    ensures { result.items ≡ reverse lives.entry.items }
{
    lives.as_mut_slice().reverse();
    lives
}

// The rules, the strongest first, without those that an `allow` outdoes. Where neither of two comes first, which is so in
// no ruleset that was read, the definition has the later one first.
fn sorted<'a>(alloc: Global, allowed: u32, lives: &[Live<'a>]) -> Result<Vec<Live<'a>>, NoMemory>
    ensures { IfOk result (λ sorted. sorted.items ≡ spec.in_order
        (filter (λ live. nat_le allowed live.rule.priority) lives.now)) }
{
    let list = not_outdone(alloc, allowed, lives)?;
    let mut sorted = last_first(list);
    sorted.sort_by(|a, b| compare(a, b))?;
    Ok(sorted)
}

// The rules of an extension that change headers, the strongest first, without those that an `allow` outdoes.
pub(crate) fn changing<'a>(alloc: Global, kept: &Kept<'a>) -> Result<Vec<Live<'a>>, NoMemory>
    ensures { IfOk result (λ lives. lives.items ≡ choice.changing_in kept.now) }
{
    sorted(alloc, kept.allowed, kept.changing.as_slice())
}
