ghost use Rattle.std.specs.Prelude.{◌≡◌, ◌++◌, ◌∷◌, [], List, length, OnOk};
ghost use Rattle.update_spec.specs.Update as spec;
ghost use Rattle.ruleset_store.specs.Seen.{update_seen, updates_seen};

use dnr_base::NoMemory;
use ruleset_store::Update;
use std::alloc::Global;

/// What is handed out of the updates that a file holds: themselves, or how many they are.
pub trait Updates: Drop {
    /// It stands for these updates.
    ghost stands: { Self → List spec.Update → Type 0 };

    /// No updates. It takes no memory.
    fn none(alloc: Global) -> Self
        ensures { stands result [] };

    /// Puts an update behind the others.
    ///
    /// `NoMemory`: no memory is left for it.
    fn add(&mut self, update: Update) -> Result<(), NoMemory>
        ensures { OnOk result ((list : List spec.Update) → stands self.old list →
            stands self.new (list ++ update_seen update ∷ [])) };
}

impl Updates for Vec<Update> {
    ghost stands = { λ updates list. updates_seen updates.items ≡ list };

    fn none(alloc: Global) -> Vec<Update> {
        Vec::new(alloc)
    }

    fn add(&mut self, update: Update) -> Result<(), NoMemory> {
        self.push(update)?;
        Ok(())
    }
}

/// How many updates a file holds.
#[derive(Clone, Copy, Debug)]
pub struct UpdateCount {
    /// The number.
    pub count: usize,
}

impl Updates for UpdateCount {
    ghost stands = { λ updates list. updates.count ≡ length list };

    fn none(_: Global) -> UpdateCount {
        UpdateCount { count: 0 }
    }

    fn add(&mut self, _: Update) -> Result<(), NoMemory> {
        self.count = self.count.checked_add(1).ok_or(NoMemory)?;
        Ok(())
    }
}
