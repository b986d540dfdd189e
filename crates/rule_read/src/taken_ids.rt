// The ids of the rules of a list that were read so far.
ghost use Rattle.std.specs.Prelude.{◌≡◌, ◌||◌, ◌==◌, ℕ, [], OnOk, OnErr};
ghost use Rattle.rule_read.specs.Reading.{is_taken};
ghost use Rattle.rule_read.specs.Ids.{IsRising, AreUpTo};

use dnr_base::NoMemory;
use std::alloc::Global;
use std::collections::BTreeSet;
use std::marker::Model;

/// Ids that are taken. Those of most lists rise, so an id above all that rose is known to be none of
/// these at once. A clause sees their list.
#[derive(Debug, Drop)]
pub struct TakenIds {
    // Each of these was above the one before it, and none is above the greatest.
    rising: Vec<u32>,
    greatest: u32,
    others: BTreeSet<u32>,
}

impl Model for TakenIds {
    ghost use Rattle.std.specs.Prelude.{◌++◌, List, ℕ};
    ghost use Rattle.rule_read.specs.Ids.{IsRising, AreUpTo};

    ghost Value = { List ℕ };

    ghost view = { λ t. t.rising.items ++ t.others.keys };

    ghost invariant = { λ t. IsRising t.rising.items × AreUpTo t.greatest t.rising.items };
}

#[tactic(auto, using(crate::proofs::Ids::found_by_halves))]
fn is_among(rising: &[u32], id: u32) -> bool
    requires { IsRising rising.now }
    ensures { result ≡ is_taken rising.now id }
{
    rising.binary_search(&id).is_ok()
}

// Whether the id is one of those that rose.
#[tactic(auto, using(crate::proofs::Ids::risen_is))]
fn has_risen(rising: &[u32], greatest: u32, id: u32) -> bool
    requires rising { IsRising rising.now }
    requires up { AreUpTo greatest rising.now }
    ensures { result ≡ is_taken rising.now id }
{
    if id > greatest {
        return false;
    }
    is_among(rising, id)
}

impl TakenIds {
    /// None. It takes no memory.
    pub fn new(alloc: Global) -> TakenIds
        ensures { result ≡ [] }
    {
        TakenIds {
            rising: Vec::new(alloc),
            greatest: 0,
            others: BTreeSet::new(alloc),
        }
    }

    /// Whether the id is taken.
    #[tactic(auto, using(crate::proofs::Ids::in_either))]
    pub fn has(&self, id: u32) -> bool
        ensures { result ≡ is_taken self.now id }
    {
        has_risen(&self.rising, self.greatest, id) || self.others.contains(&id)
    }

    /// Takes an id.
    ///
    /// `NoMemory`: no memory is left for it. The ids are then as before.
    #[tactic(auto, using(crate::proofs::Ids::one_rises, crate::proofs::Ids::one_more))]
    pub fn insert(&mut self, id: u32) -> Result<(), NoMemory>
        ensures taken { OnOk result ((other : ℕ) →
            is_taken self.new other ≡ (is_taken self.old other || id == other)) }
        ensures same { OnErr result (self.new ≡ self.old) }
    {
        if id > self.greatest {
            self.rising.push(id)?;
            self.greatest = id;
            return Ok(());
        }
        self.others.insert(id)?;
        Ok(())
    }
}
