ghost use Rattle.std.specs.Prelude.{◌≡◌, pos, true, IfOk, OnOk};
ghost use Rattle.std.specs.BTreeSet.{Updates, contains_by};
ghost use Rattle.std.specs.Ordering.{int_cmp};
ghost use Rattle.ruleset_store.specs.Ids as spec;

use dnr_base::NoMemory;
use std::alloc::Global;
use std::collections::BTreeSet;

// Puts a whole number into the set.
fn add_whole(set: &mut BTreeSet<i128>, id: &i128) -> Result<(), NoMemory>
    ensures { OnOk result (Updates int_cmp set.old set.new id.now true) }
{
    set.insert(*id)?;
    Ok(())
}

// The whole numbers as a set that is asked in the time of its depth.
#[tactic(auto, using(crate::proofs::IdSets::more_wholes))]
pub(crate) fn wholes_among(alloc: Global, ids: &[i128]) -> Result<BTreeSet<i128>, NoMemory>
    ensures { IfOk result (λ set. spec.HasWholes set ids.now) }
{
    let mut set = BTreeSet::new(alloc);
    for id in ids {
        add_whole(&mut set, id)?;
    }
    Ok(set)
}

// Whether the set has this whole number.
pub(crate) fn has_whole(set: &BTreeSet<i128>, id: &i128) -> bool
    ensures { result ≡ contains_by (int_cmp id.now) set.now }
{
    set.contains(id)
}

// Whether the set of whole numbers has this id.
pub(crate) fn has_number(set: &BTreeSet<i128>, id: u32) -> bool
    ensures { result ≡ contains_by (int_cmp (pos id)) set.now }
{
    set.contains(&i128::from(id))
}
