ghost use Rattle.std.specs.Prelude.{◌≡◌, None, OnOk, IfOk, IfErr};
ghost use Rattle.update_spec.specs.Judge as spec;
ghost use Rattle.update_spec.specs.Update.{replaced};
ghost use Rattle.ruleset_store.specs.Seen.{IsRefusalOf};

use crate::names::judge_ids;
use crate::{RuleList, SharedRule};
use std::alloc::Global;
use update_spec::Refusal;

// The rules once those of these ids are removed and these are added.
#[tactic(auto, using(crate::proofs::Kept::refused_so))]
pub(crate) fn replaced(
    alloc: Global,
    rules: &RuleList,
    remove: &[u32],
    add: &[SharedRule],
) -> Result<RuleList, Refusal>
    ensures next { IfOk result (λ next. next ≡ replaced remove.now add.now rules.now) }
    ensures apart { OnOk result (spec.first_duplicate remove.now add.now rules.now ≡ None) }
    ensures refused { IfErr result (IsRefusalOf (spec.first_duplicate remove.now add.now rules.now)) }
{
    let kept = rules.without(alloc, remove)?;
    match judge_ids(&kept, add) {
        Ok(()) => Ok(kept.with(alloc, add)?),
        Err(refusal) => Err(refusal),
    }
}
