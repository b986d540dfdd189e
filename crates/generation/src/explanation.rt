ghost use Rattle.std.specs.Prelude.{◌≡◌, map, reverse, IfOk};
ghost use Rattle.explain_spec.specs.Explanation.{ascending_lines};
ghost use Rattle.generation.specs.Explained as spec;

use crate::kept::{Found, Kept};
use dnr_base::{Items, NoMemory, Text};
use dnr_verdict::{Why, WhyRule};
use std::alloc::Global;

// The same lines, ascending.
fn ascending(alloc: Global, lines: &[u32]) -> Result<Vec<u32>, NoMemory>
    ensures { IfOk result (λ sorted. sorted.items ≡ ascending_lines lines.now) }
{
    let mut sorted = Vec::from_slice(alloc, lines)?;
    sorted.sort()?;
    Ok(sorted)
}

// The rule that an extension of this name decides by.
fn why_rule(alloc: Global, extension: &str, found: &Found<'_>) -> Result<WhyRule, NoMemory>
    ensures { IfOk result (λ rule. rule ≡ spec.why_found extension.now found.now) }
{
    Ok(WhyRule {
        rule: found.live.name(alloc, extension)?,
        verb: found.candidate.action,
        priority: found.live.rule.priority(),
        frame: found.frame,
        lines: Items::build(ascending(alloc, found.live.lines)?),
    })
}

// What an extension says.
fn why(alloc: Global, kept: &Kept<'_>) -> Result<Why, NoMemory>
    ensures { IfOk result (λ why. why ≡ spec.why_in kept.now) }
{
    let winner = match &kept.best {
        Some(found) => Some(why_rule(alloc, kept.name, found)?),
        None => None,
    };
    Ok(Why {
        ext: Text::build(String::from_str(alloc, kept.name)?),
        winner,
    })
}

// What each extension says.
fn each(alloc: Global, kepts: &[Kept<'_>]) -> Result<Vec<Why>, NoMemory>
    ensures { IfOk result (λ list. list.items ≡ map spec.why_in kepts.now) }
{
    let mut list = Vec::with_capacity(alloc, kepts.len())?;
    for kept in kepts {
        list.push(why(alloc, kept)?)?;
    }
    Ok(list)
}

// What each extension says, the newest first.
pub(crate) fn newest_first(alloc: Global, kepts: &[Kept<'_>]) -> Result<Vec<Why>, NoMemory>
    ensures { IfOk result (λ list. list.items ≡ reverse (map spec.why_in kepts.now)) }
{
    let mut list = each(alloc, kepts)?;
    list.as_mut_slice().reverse();
    Ok(list)
}
