ghost use Rattle.std.specs.Prelude.{◌≡◌, List, IfOk};

use crate::{Copied, NoMemory};
use std::alloc::Global;
use std::marker::Model;

/// A list that its owner keeps and lends: what a public field has in place of a `Vec`. A clause sees it as
/// the list of its items, in their order.
#[derive(Debug, Drop)]
pub struct Items<T> {
    items: Vec<T>,
}

impl<T> Model for Items<T> {
    ghost Value = { List T };

    ghost view = { λ s. s.items.items };
}

impl<T> Items<T> {
    /// Takes the vector as it is, and no memory.
    pub fn build(items: Vec<T>) -> Items<T>
        ensures { result ≡ items.items }
    {
        Items { items }
    }

    /// The items, in their order.
    pub fn as_slice(&self) -> &[T]
        ensures { result.now ≡ self.now }
    {
        self.items.as_slice()
    }

    /// The vector of them. It takes no memory.
    pub fn into_vec(self) -> Vec<T>
        ensures { result.items ≡ self }
    {
        self.items
    }
}

impl<T: Copied + Drop> Items<T> {
    /// A list of equal items, in their order.
    ///
    /// `NoMemory`: no memory is left for the list, or for one of its items.
    pub fn copy(&self, alloc: Global) -> Result<Items<T>, NoMemory>
        ensures { IfOk result (λ copy. copy ≡ self.now) }
    {
        let mut items = Vec::with_capacity(alloc, self.items.len())?;
        for item in self.items.iter() {
            items.push(item.copied(alloc)?)?;
        }
        Ok(Items { items })
    }
}

impl<T: Copied + Drop> Copied for Items<T> {
    fn copied(&self, alloc: Global) -> Result<Items<T>, NoMemory> {
        self.copy(alloc)
    }
}
