ghost use Rattle.std.specs.Prelude.{◌≡◌, ◌∷◌, ◌++◌, [], IfOk, OnOk, OnErr};
ghost use Rattle.std.specs.List.Sorted.{IsPermutation};
ghost use Rattle.key_table.specs.Kept.{IsRising};

use crate::asked::Asked;
use crate::cuts::starts_of;
use crate::entry::{Entry, longest_of};
use crate::marks::marks_of;
use crate::order::compare;
use crate::table::Table;
use std::alloc::{AllocError, Global};
use std::marker::Model;

/// Pairs of a key and a place that become a table. A clause sees their list.
#[derive(Debug, Drop)]
pub struct Draft {
    texts: Vec<u8>,
    entries: Vec<Entry>,
}

impl Model for Draft {
    ghost use Rattle.std.specs.Prelude.{List};
    ghost use Rattle.key_table.specs.Pairs.{Pair};
    ghost use Rattle.key_table.specs.Kept.{pairs_in, AreEntries};

    ghost Value = { List Pair };

    ghost view = { λ d. pairs_in d.texts.items d.entries.items };

    ghost invariant = { λ d. AreEntries d.texts.items d.entries.items };
}

// The number, if it fits half its bits.
fn narrow(number: usize) -> Result<u32, AllocError>
    ensures { IfOk result (λ narrow. narrow ≡ number) }
{
    u32::try_from(number).map_err(|_| AllocError)
}

// Puts the entries in order.
fn sort(texts: &[u8], entries: &mut Vec<Entry>) -> Result<(), AllocError>
    ensures moved { IsPermutation entries.old.items entries.new.items }
    ensures sorted { OnOk result (IsRising texts.now entries.new.items) }
{
    entries.sort_by(|entry, other| compare(texts, entry, other))
}

impl Draft {
    /// No pairs. It takes no memory.
    pub fn new(alloc: Global) -> Draft
        ensures { result ≡ [] }
    {
        Draft {
            texts: Vec::new(alloc),
            entries: Vec::new(alloc),
        }
    }

    /// Puts a pair at the end. Of `needed` each bit that is set is something that the place needs of whoever asks
    /// what is near.
    ///
    /// # Errors
    ///
    /// Where memory ran out, or the keys have 4 GiB. The pairs are then as before.
    pub fn add(&mut self, key: &[u8], place: u32, needed: u128) -> Result<(), AllocError>
        ensures added { OnOk result (self.new
            ≡ self.old ++ record { key = key.now; place = place; needed = needed } ∷ []) }
        ensures same { OnErr result (self.new ≡ self.old) }
    {
        let at = narrow(self.texts.len())?;
        let len = narrow(key.len())?;
        let tag = Asked::exactly(key).tag();
        self.texts.extend_from_slice(key)?;
        self.entries.push(Entry {
            needed,
            tag,
            at,
            len,
            place,
        })?;
        Ok(())
    }

    /// The table of the pairs.
    ///
    /// # Errors
    ///
    /// Where memory ran out, or there are more pairs than a `u32` counts.
    pub fn finish(self, alloc: Global) -> Result<Table, AllocError>
        ensures { IfOk result (λ table. IsPermutation self table) }
    {
        let Draft { texts, mut entries } = self;
        sort(&texts, &mut entries)?;
        let starts = starts_of(alloc, &entries)?;
        let marks = marks_of(alloc, &entries)?;
        let longest = longest_of(&entries);
        Ok(Table::new(texts, entries, starts, marks, longest))
    }
}
