ghost use Rattle.std.specs.Prelude.{◌≡◌, ◌≤◌, length, take, IfOk, IfErr, OnOk, OnErr};
ghost use Rattle.verdict_shown.specs.Shown as spec;
ghost use Rattle.verdict_shown.specs.Shown.{IsUnshown, Shows};
ghost use Rattle.verdict_shown.specs.Written.{Grows, IsWritten};

use crate::writing::{outcome_number, put_changes, put_rule_if, put_target};
use crate::{ShowRefusal, ShownChange, ShownVerdict};
use dnr_base::NoMemory;
use dnr_verdict::Verdict;
use std::alloc::Global;

/// Shows what becomes of a request after so many updates: the texts are put at the front of `out`, the header changes at the
/// front of `changes`, and the numbers are given.
///
/// # Errors
///
/// Nothing is put anywhere.
///
/// - `Room`: the texts or the changes take more than there is room for.
/// - `NoMemory`: memory ran out.
#[tactic(auto, using(crate::proofs::Learns::shows_so, crate::proofs::Learns::takes_more))]
pub fn show(
    alloc: Global,
    generation: u32,
    verdict: &Verdict,
    out: &mut [u8],
    changes: &mut [ShownChange],
) -> Result<ShownVerdict, ShowRefusal>
    ensures shown { IfOk result (λ shown. Shows (spec.learnt_of generation verdict.now) shown out.new changes.new) }
    ensures unshown { IfErr result (IsUnshown (spec.learnt_of generation verdict.now) (length out.old)
        (length changes.old)) }
    ensures untouched { OnErr result (out.new ≡ out.old) }
    ensures unchanged { OnErr result (changes.new ≡ changes.old) }
    ensures room { length out.new ≡ length out.old }
    ensures most { length changes.new ≡ length changes.old }
{
    let mut bytes = Vec::new(alloc);
    let list = put_changes(alloc, verdict.ops.as_slice(), &mut bytes)?;
    let shown = put_verdict(generation, verdict, list.len(), &mut bytes)?;
    if out.len() < shown.bytes || changes.len() < shown.changes {
        return Err(ShowRefusal::Room(shown));
    }
    put_bytes(&bytes, out);
    put_list(&list, changes);
    Ok(shown)
}

// What becomes of the request, behind the texts of so many changes.
#[tactic(auto, using(crate::proofs::Learns::written_so, crate::proofs::Places::grows_on))]
fn put_verdict(
    generation: u32,
    verdict: &Verdict,
    changes: usize,
    into: &mut Vec<u8>,
) -> Result<ShownVerdict, NoMemory>
    ensures written { IfOk result (IsWritten generation verdict.now changes into.new.items) }
    ensures grows { OnOk result (Grows into.old.items into.new.items) }
{
    let (has_rule, rule) = put_rule_if(&verdict.rule, into)?;
    let (has_target, target) = put_target(&verdict.target, into)?;
    Ok(ShownVerdict {
        rule,
        target,
        bytes: into.len(),
        changes,
        outcome: outcome_number(verdict.outcome),
        generation,
        has_rule,
        has_target,
    })
}

// Puts bytes at the front of others, where there is room for them.
fn put_bytes(bytes: &[u8], out: &mut [u8])
    requires { length bytes.now ≤ length out.old }
    ensures first { take (length bytes.now) out.new ≡ bytes.now }
    ensures room { length out.new ≡ length out.old }
{
    out[..bytes.len()].copy_from_slice(bytes);
}

// The same of changes.
fn put_list(list: &[ShownChange], changes: &mut [ShownChange])
    requires { length list.now ≤ length changes.old }
    ensures first { take (length list.now) changes.new ≡ list.now }
    ensures room { length changes.new ≡ length changes.old }
{
    changes[..list.len()].copy_from_slice(list);
}
