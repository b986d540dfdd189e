ghost use Rattle.std.specs.Prelude.{◌≡◌, ◌≢◌, ◌↔◌, ◌+◌, ◌-◌, ◌<◌, ◌≤◌, ◌++◌, ◌∷◌, []};
ghost use Rattle.std.specs.Prelude.{List, ℕ, Some, None};
ghost use Rattle.std.specs.Prelude.{length, Err, IfOk, OnOk, OnErr, IsErrOf, IsTrue, IsFalse};
ghost use Rattle.dnr_base.specs.Faults.{HasCauseOf};
ghost use Rattle.keep_disk.specs.Images.{AddsNone};
ghost use Rattle.keep_disk.specs.Moments.{LeavesOnly};
ghost use Rattle.update_spec.specs.Entries as entries;
ghost use Rattle.update_spec.specs.Judge.{judge_update};
ghost use Rattle.ruleset_store.specs.Seen.{update_seen};
ghost use Rattle.keep_records.specs.Records.{payloads, end_of};
ghost use Rattle.keep_records.specs.Ends.{max_file, AllHave, HadPayloads};
ghost use Rattle.keep_spec.specs.Kept as spec;
ghost use Rattle.keep_spec.specs.Agrees.{Agrees, AreRead, HadList, HasBeforeOrAfter};
ghost use Rattle.keep_spec.specs.Agrees.{IsFirstRefused, Sound, normal_update};
ghost use Rattle.keep_spec.specs.Written.{MayBeKept, text_of};

use crate::handed::Updates;
use crate::listed::{name_of, read_updates};
use crate::opening::bytes_of;
use crate::payload::payload_of;
use crate::refusals::{OpenRefusal, PutRefusal};
use dnr_base::{NoMemory, Text};
use keep_disk::Disk;
use keep_laws::alike_updates_are_judged_alike;
use keep_records::{MAX_FILE, append, mend_end, record_behind_gate};
use regex_host::RegexHost;
use ruleset_store::{Store, Update};
use std::alloc::Global;
use std::marker::Model;

/// The dynamic updates of one extension that a file keeps. A clause sees the extension's name, the list of updates, the
/// place where their records end, and whether it may be added to.
#[derive(Drop)]
pub struct Keep {
    alloc: Global,
    name: Text,
    // What the file held when it was opened, and what was added since then.
    base: Vec<u8>,
    added: Vec<Update>,
    store: Store,
    place: u64,
    live: bool,
}

impl Model for Keep {
    ghost use Rattle.std.specs.Prelude.{◌≡◌};
    ghost use Rattle.keep_spec.specs.Kept.{Kept, state_of};
    ghost use Rattle.keep_laws.specs.Laws.{AreDynamic};
    ghost use Rattle.rule_keep.specs.Listed.{list_of};

    ghost Value = { Kept };

    ghost view = { λ keep. record {
      name = keep.name;
      list = list_of keep.name keep.base.items keep.added.items;
      place = keep.place;
      live = keep.live;
    } };

    ghost invariant = { λ keep.
        (keep.store ≡ state_of keep.name (list_of keep.name keep.base.items keep.added.items))
        × AreDynamic (list_of keep.name keep.base.items keep.added.items) };
}

impl Keep {
    /// Whether it may be added to. Where it may not, the file is opened again. It takes no memory.
    pub fn live(&self) -> bool
        ensures { result ≡ self.now.live }
    {
        self.live
    }

    /// The state after the kept updates, in which the extension has no other rules. It takes no memory.
    pub fn store(&self) -> &Store
        ensures { result.now ≡ spec.state_of self.now.name self.now.list }
    {
        &self.store
    }

    /// Reads the updates of a file, and mends its end. What is asked for of them is handed out beside the `Keep`. A
    /// crash within leaves only lists that a crash before could have left.
    ///
    /// # Errors
    ///
    /// In this order; after each the file is opened again.
    ///
    /// - `DiskFault`: the disk failed, and its count of faults rose.
    /// - `KeepTooLong`: the file has more than 67,108,864 bytes.
    /// - `BadRecord`: the record at this place is the first that is no dynamic update of the extension, or that is
    ///   refused after those before it.
    /// - `HostFault`: the pattern host failed, and its count of faults rose.
    /// - `NoMemory`: memory ran out.
    ///
    /// But for the first, nothing was cut or written.
    pub fn open<D: Disk, H: RegexHost, U: Updates>(
        alloc: Global,
        disk: &mut D,
        name: &str,
        host: &mut H,
    ) -> Result<(Keep, U), OpenRefusal>
        ensures name { IfOk result (λ opened. opened.0.name ≡ name.now) }
        ensures list { IfOk result (λ opened. IsTrue (D.tells disk.old) →
            opened.0.list ≡ spec.kept name.now (D.seen disk.old)) }
        ensures read { IfOk result (λ opened. IsTrue (D.tells disk.old) →
            AreRead name.now (payloads (D.seen disk.old)) opened.0.list) }
        ensures place { IfOk result (λ opened. IsTrue (D.tells disk.old) →
            opened.0.place ≡ end_of (D.seen disk.old)) }
        ensures updates { IfOk result (λ opened. U.stands opened.1 opened.0.list) }
        ensures agrees { IfOk result (λ opened. IsTrue (D.tells disk.old) →
            Agrees (D.images disk.new) opened.0) }
        ensures live { IfOk result (λ opened. IsTrue opened.0.live) }
        ensures accepted { IfOk result (λ opened.
            IsTrue (spec.all_accepted (spec.start name.now) opened.0.list)) }
        ensures same { OnOk result (IsTrue (D.tells disk.old) →
            spec.kept name.now (D.seen disk.new) ≡ spec.kept name.now (D.seen disk.old)) }

        ensures too_long { IsErrOf result OpenRefusal.KeepTooLong → IsTrue (D.tells disk.old) →
            max_file < length (D.seen disk.old) }
        ensures within { (IsErrOf result OpenRefusal.DiskFault → ⊥) →
            (IsErrOf result OpenRefusal.KeepTooLong → ⊥) → IsTrue (D.tells disk.old) →
            length (D.seen disk.old) ≤ max_file }
        ensures bad { (offset : ℕ) → IsErrOf result (OpenRefusal.BadRecord offset) →
            IsTrue (D.tells disk.old) →
            IsFirstRefused name.now (payloads (D.seen disk.old)) offset }
        ensures unwritten { OnErr result ((IsErrOf result OpenRefusal.DiskFault → ⊥) →
            (D.seen disk.new ≡ D.seen disk.old)
            × AddsNone (D.images disk.old) (D.images disk.new)) }

        // A crash at any moment of the call leaves a list that a crash before it could have left.
        ensures any_moment { IsTrue (D.tells disk.old) → LeavesOnly D.moment D.left_since
            disk.old disk.new (HadList name.now (D.images disk.old)) }
        ensures afterwards { IsTrue (D.tells disk.old) → (image : List ℕ) →
            D.images disk.new image → HadList name.now (D.images disk.old) image }

        // A file that is sound stays sound, and is not refused for what it holds.
        ensures sound { IsTrue (D.tells disk.old) → Sound name.now (D.images disk.old) →
            Sound name.now (D.images disk.new) }
        ensures not_long { IsTrue (D.tells disk.old) → Sound name.now (D.images disk.old) →
            IsErrOf result OpenRefusal.KeepTooLong → ⊥ }
        ensures not_bad { IsTrue (D.tells disk.old) → Sound name.now (D.images disk.old) →
            (offset : ℕ) → IsErrOf result (OpenRefusal.BadRecord offset) → ⊥ }
        ensures told { D.tells disk.new ≡ D.tells disk.old }
        ensures cause { HasCauseOf OpenRefusal.DiskFault
            (D.faults disk.old) (D.faults disk.new) result }
        ensures host { HasCauseOf OpenRefusal.HostFault
            (H.faults host.old) (H.faults host.new) result }
        ensures calm { (IsErrOf result OpenRefusal.HostFault → ⊥) →
            H.faults host.new ≡ H.faults host.old }
    {
        Keep::open_list(alloc, disk, name, host)
    }

    // The same as `open`, by the payloads of the records and without what follows from its clauses.
    fn open_list<D: Disk, H: RegexHost, U: Updates>(
        alloc: Global,
        disk: &mut D,
        name: &str,
        host: &mut H,
    ) -> Result<(Keep, U), OpenRefusal>
        ensures name { IfOk result (λ opened. opened.0.name ≡ name.now) }
        ensures read { IfOk result (λ opened. IsTrue (D.tells disk.old) →
            AreRead name.now (payloads (D.seen disk.old)) opened.0.list) }
        ensures place { IfOk result (λ opened. IsTrue (D.tells disk.old) →
            opened.0.place ≡ end_of (D.seen disk.old)) }
        ensures updates { IfOk result (λ opened. U.stands opened.1 opened.0.list) }
        ensures has { IfOk result (λ opened. IsTrue (D.tells disk.old) →
            AllHave (D.images disk.new) (payloads (D.seen disk.old)) opened.0.place) }
        ensures live { IfOk result (λ opened. IsTrue opened.0.live) }
        ensures accepted { IfOk result (λ opened.
            IsTrue (spec.all_accepted (spec.start name.now) opened.0.list)) }

        ensures too_long { IsErrOf result OpenRefusal.KeepTooLong → IsTrue (D.tells disk.old) →
            max_file < length (D.seen disk.old) }
        ensures within { (IsErrOf result OpenRefusal.DiskFault → ⊥) →
            (IsErrOf result OpenRefusal.KeepTooLong → ⊥) → IsTrue (D.tells disk.old) →
            length (D.seen disk.old) ≤ max_file }
        ensures bad { (offset : ℕ) → IsErrOf result (OpenRefusal.BadRecord offset) →
            IsTrue (D.tells disk.old) →
            IsFirstRefused name.now (payloads (D.seen disk.old)) offset }
        ensures unwritten { OnErr result ((IsErrOf result OpenRefusal.DiskFault → ⊥) →
            (D.seen disk.new ≡ D.seen disk.old)
            × AddsNone (D.images disk.old) (D.images disk.new)) }

        ensures any_moment { IsTrue (D.tells disk.old) → LeavesOnly D.moment D.left_since
            disk.old disk.new (HadPayloads (D.images disk.old)) }
        ensures told { D.tells disk.new ≡ D.tells disk.old }
        ensures cause { HasCauseOf OpenRefusal.DiskFault
            (D.faults disk.old) (D.faults disk.new) result }
        ensures host { HasCauseOf OpenRefusal.HostFault
            (H.faults host.old) (H.faults host.new) result }
        ensures calm { (IsErrOf result OpenRefusal.HostFault → ⊥) →
            H.faults host.new ≡ H.faults host.old }
    {
        let bytes = bytes_of(alloc, disk)?;
        let found = read_updates(alloc, name, &bytes, host)?;
        let named = name_of(alloc, name)?;
        mend_end(disk, &bytes, found.place)?;
        let keep = Keep {
            alloc,
            name: named,
            base: bytes,
            added: Vec::new(alloc),
            store: found.store,
            place: found.place,
            live: true,
        };
        Ok((keep, found.updates))
    }

    /// Adds an update. At `Ok` each crash from then on leaves it; a crash within leaves the list from before, or that
    /// list with the update at the end.
    ///
    /// # Errors
    ///
    /// - `DiskFault`: the disk failed, and its count of faults rose. The file is opened again.
    /// - `KeepFull`: the file would have more than 67,108,864 bytes. Nothing was written.
    /// - `NoMemory`: memory ran out. Nothing was written.
    pub fn put<D: Disk>(&mut self, disk: &mut D, update: &Update) -> Result<(), PutRefusal>
        requires live { IsTrue self.old.live }
        requires agrees { IsTrue (D.tells disk.old) → Agrees (D.images disk.old) self.old }
        requires accepted { judge_update (spec.state_of self.old.name self.old.list)
            (update_seen update.now) ≡ None }
        requires update { MayBeKept self.old.name (update_seen update.now) }

        ensures name { self.new.name ≡ self.old.name }
        ensures added { OnOk result
            (self.new.list ≡ self.old.list ++ update_seen update.now ∷ []) }
        ensures place { OnOk result (self.new.place
            ≡ self.old.place + 5 + length (text_of (update_seen update.now))) }
        ensures agrees { OnOk result (IsTrue (D.tells disk.old) →
            Agrees (D.images disk.new) self.new) }

        ensures full { result ≢ Err PutRefusal.NoMemory → IsErrOf result PutRefusal.KeepFull
            ↔ (max_file < self.old.place + 6 + length (text_of (update_seen update.now))) }
        ensures full_same { IsErrOf result PutRefusal.KeepFull →
            (self.new ≡ self.old) × (disk.new ≡ disk.old) }
        ensures no_memory { IsErrOf result PutRefusal.NoMemory →
            (self.new ≡ self.old) × (disk.new ≡ disk.old) }
        ensures fault { IsErrOf result PutRefusal.DiskFault → IsFalse self.new.live }
        ensures live { result ≢ Err PutRefusal.DiskFault → IsTrue self.new.live }

        // A crash at any moment of the call leaves the list from before it, with the update at the end or without.
        ensures any_moment { IsTrue (D.tells disk.old) → LeavesOnly D.moment D.left_since
            disk.old disk.new
            (HasBeforeOrAfter self.old.name self.old.list (update_seen update.now)) }
        ensures afterwards { IsTrue (D.tells disk.old) → (image : List ℕ) →
            D.images disk.new image →
            HasBeforeOrAfter self.old.name self.old.list (update_seen update.now) image }
        ensures sound { IsTrue (D.tells disk.old) → Sound self.old.name (D.images disk.old) →
            Sound self.old.name (D.images disk.new) }
        ensures told { D.tells disk.new ≡ D.tells disk.old }
        ensures cause { HasCauseOf PutRefusal.DiskFault
            (D.faults disk.old) (D.faults disk.new) result }
    {
        alike_updates_are_judged_alike();
        let payload = self.payload(update)?;
        if room_behind(self.place) < payload.len() as u64 {
            return Err(PutRefusal::KeepFull);
        }
        let bytes = record_behind_gate(self.alloc, &payload)?;
        let next = self.after(update)?;
        let copy = update.copy(self.alloc)?;
        self.added.push(copy)?;
        self.store = next;
        if append(disk, self.place, &payload, &bytes).is_err() {
            self.live = false;
            return Err(PutRefusal::DiskFault);
        }
        self.place += payload.len() as u64 + 5;
        Ok(())
    }

    // The text of an update that may be kept, which reads as it.
    fn payload(&self, update: &Update) -> Result<Vec<u8>, NoMemory>
        requires { MayBeKept self.now.name (update_seen update.now) }
        ensures text { IfOk result (λ text. text.items ≡ text_of (update_seen update.now)) }
        ensures read { IfOk result (λ text. spec.update_at self.now.name text.items
            ≡ Some (normal_update (update_seen update.now))) }
    {
        match update {
            Update::Dynamic {
                extension,
                remove,
                add,
            } => payload_of(
                self.alloc,
                extension.as_str(),
                remove.as_slice(),
                add.as_slice(),
            ),
            _ => Err(NoMemory),
        }
    }

    // The state after an update that is accepted.
    fn after(&self, update: &Update) -> Result<Store, NoMemory>
        requires { judge_update (spec.state_of self.now.name self.now.list)
            (update_seen update.now) ≡ None }
        ensures { IfOk result (λ store. store ≡ entries.after
            (spec.state_of self.now.name self.now.list) (entries.one (update_seen update.now))) }
    {
        match self.store.apply(self.alloc, update) {
            Ok(store) => Ok(store),
            Err(_) => Err(NoMemory),
        }
    }
}

// How many bytes a payload may have whose record is written behind the gate byte at this place.
fn room_behind(place: u64) -> u64
    ensures { result ≡ max_file - (place + 6) }
{
    if place > MAX_FILE - 6 {
        return 0;
    }
    MAX_FILE - 6 - place
}
