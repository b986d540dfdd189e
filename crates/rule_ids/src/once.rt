ghost use Rattle.std.specs.Prelude.{IfOk};
ghost use Rattle.rule_ids.specs.Off.{AreApart, HaveSame};

use dnr_base::NoMemory;
use std::alloc::Global;
use std::collections::BTreeSet;

/// The ids, each once.
///
/// `NoMemory`: no memory is left for them.
#[tactic(auto, using(crate::proofs::IdSets::put_more, crate::proofs::IdSets::put_again))]
pub fn distinct(alloc: Global, ids: &[u32]) -> Result<Vec<u32>, NoMemory>
    ensures same { IfOk result (λ once. HaveSame ids.now once.items) }
    ensures apart { IfOk result (λ once. AreApart once.items) }
{
    let mut known = BTreeSet::new(alloc);
    let mut once = Vec::new(alloc);
    for id in ids {
        if !known.contains(id) {
            known.insert(*id)?;
            once.push(*id)?;
        }
    }
    Ok(once)
}
