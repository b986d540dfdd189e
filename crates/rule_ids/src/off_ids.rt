ghost use Rattle.std.specs.Prelude.{◌≡◌, ◌++◌, [], IfOk};
ghost use Rattle.std.specs.List.Sorted.{IsNonDecreasing, IsPermutation};
ghost use Rattle.rule_spec.specs.State.{has_number};

use dnr_base::NoMemory;
use std::alloc::Global;
use std::marker::Model;

/// The ids of rules that are off, disabled or removed, which are asked for in the time of a search. A clause sees the
/// ids.
#[derive(Debug, Drop)]
pub struct OffIds {
    ids: Vec<u32>,
    rising: Vec<u32>,
}

impl Model for OffIds {
    ghost use Rattle.std.specs.Prelude.{ℕ, List};
    ghost use Rattle.rule_ids.specs.Off.{AreOff};

    ghost Value = { List ℕ };

    ghost view = { λ o. o.ids.items };

    ghost invariant = { λ o. AreOff o.ids.items o.rising.items };
}

// Whether the number is one of these, which rise.
fn is_among(rising: &[u32], id: u32) -> bool
    requires { IsNonDecreasing rising.now }
    ensures { result ≡ has_number rising.now id }
{
    rising.binary_search(&id).is_ok()
}

// The numbers and others behind them.
fn joined(alloc: Global, ids: &[u32], others: &[u32]) -> Result<Vec<u32>, NoMemory>
    ensures { IfOk result (λ all. all.items ≡ ids.now ++ others.now) }
{
    let mut all = Vec::with_capacity(alloc, ids.len().saturating_add(others.len()))?;
    all.extend_from_slice(ids)?;
    all.extend_from_slice(others)?;
    Ok(all)
}

// The same in their order. What rises already is passed over as a whole.
fn sorted(mut ids: Vec<u32>) -> Result<Vec<u32>, NoMemory>
    ensures same { IfOk result (λ rising. IsPermutation ids.items rising.items) }
    ensures rising { IfOk result (λ rising. IsNonDecreasing rising.items) }
{
    ids.sort()?;
    Ok(ids)
}

impl OffIds {
    /// No ids. It takes no memory.
    pub fn none(alloc: Global) -> OffIds
        ensures { result ≡ [] }
    {
        OffIds {
            ids: Vec::new(alloc),
            rising: Vec::new(alloc),
        }
    }

    /// These ids.
    ///
    /// `NoMemory`: no memory is left to look them up.
    pub fn of(alloc: Global, ids: Vec<u32>) -> Result<OffIds, NoMemory>
        ensures { IfOk result (λ off. off ≡ ids.items) }
    {
        let rising = sorted(Vec::from_slice(alloc, ids.as_slice())?)?;
        Ok(OffIds { ids, rising })
    }

    /// The ids, and others behind them.
    ///
    /// `NoMemory`: no memory is left for them.
    pub fn and(&self, alloc: Global, others: &[u32]) -> Result<OffIds, NoMemory>
        ensures { IfOk result (λ off. off ≡ self.now ++ others.now) }
    {
        let ids = joined(alloc, self.ids.as_slice(), others)?;
        let rising = sorted(joined(alloc, self.rising.as_slice(), others)?)?;
        Ok(OffIds { ids, rising })
    }

    /// The ids, in their order.
    pub fn ids(&self) -> &[u32]
        ensures { result.now ≡ self.now }
    {
        self.ids.as_slice()
    }

    /// Whether the rules of this id are off.
    pub fn has(&self, id: u32) -> bool
        ensures { result ≡ has_number self.now id }
    {
        is_among(self.rising.as_slice(), id)
    }
}
