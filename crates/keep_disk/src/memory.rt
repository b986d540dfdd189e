ghost use Rattle.std.specs.Prelude.{◌≡◌, ◌≤◌, ◌++◌, ◌∷◌, [], List, ℕ, true, length, map};
ghost use Rattle.std.specs.Prelude.{IfOk, OnOk, OnErr, IsTrue};
ghost use Rattle.std.specs.List.{All};
ghost use Rattle.dnr_base.specs.Faults.{Rose, HasCause};
ghost use Rattle.keep_disk.specs.Memory.{Memory, seen_of, settled_of, marked_of, ImagesOf};
ghost use Rattle.keep_disk.specs.Memory.{LeftSince, HasDone, HasNothing, Takes};
ghost use Rattle.keep_disk.specs.Laws.{seen_is_image as seen_law, counts_now as counts_law};
ghost use Rattle.keep_disk.specs.Laws.{only_now as only_law, Three};

use crate::parts::{copy_part, overwritten};
use crate::{Bytes, Call, Disk};
use dnr_base::{Failed, NoMemory, count_fault};
use std::alloc::Global;
use std::marker::Model;

/// A file in memory. It keeps a record of the calls that did their work.
#[derive(Drop)]
pub struct MemoryDisk {
    alloc: Global,
    first: Vec<u8>,
    held: Vec<u8>,
    settled: Vec<u8>,
    marked: Vec<u8>,
    calls: Vec<Call>,
    failing: Vec<u64>,
    count: u64,
    faults: u64,
}

impl Model for MemoryDisk {
    ghost use Rattle.std.specs.Prelude.{◌≡◌};
    ghost use Rattle.keep_disk.specs.Memory.{Memory};
    ghost use Rattle.keep_disk.specs.Calls.{seen_after, settled_after, marked_after};

    ghost Value = { Memory };

    ghost view = { λ disk. record {
      first = disk.first.items;
      calls = disk.calls.items;
      failing = disk.failing.items;
      faults = disk.faults;
    } };

    ghost invariant = { λ disk. (disk.held.items ≡ seen_after disk.first.items disk.calls.items)
        × (disk.settled.items ≡ settled_after disk.first.items disk.first.items disk.calls.items)
        × (disk.marked.items ≡ marked_after disk.first.items disk.first.items disk.calls.items) };
}

impl MemoryDisk {
    /// A file of these bytes, all of them on the disk. The calls of the numbers in `failing`, counted from 1, fail,
    /// and so does one for which there is no memory.
    ///
    /// `NoMemory`: no memory is left for the bytes.
    pub fn new(alloc: Global, bytes: &[u8], failing: Vec<u64>) -> Result<MemoryDisk, NoMemory>
        ensures { IfOk result (λ disk.
            disk ≡ record { first = bytes.now; calls = []; failing = failing.items; faults = 0 }) }
    {
        Ok(MemoryDisk {
            alloc,
            first: bytes.to_vec(alloc)?,
            held: bytes.to_vec(alloc)?,
            settled: bytes.to_vec(alloc)?,
            marked: bytes.to_vec(alloc)?,
            calls: Vec::new(alloc),
            failing,
            count: 0,
            faults: 0,
        })
    }

    /// What a read gives.
    pub fn bytes(&self) -> &[u8]
        ensures { result.now ≡ seen_of self.now }
    {
        &self.held
    }

    /// What each call did, the first of them first.
    pub fn calls(&self) -> &[Call]
        ensures { result.now ≡ self.now.calls }
    {
        &self.calls
    }

    /// Three of the images that a crash now may leave, each as a disk on which no call fails: nothing since the last
    /// sync that succeeded was done; all of it was done; all of it was done and each byte written since then is 255.
    ///
    /// `NoMemory`: no memory is left for them.
    pub fn images(&self) -> Result<Vec<MemoryDisk>, NoMemory>
        ensures three { IfOk result (λ disks. map seen_of disks.items ≡
            settled_of self.now ∷ seen_of self.now ∷ marked_of self.now ∷ []) }
        ensures images { OnOk result (Three (seen_of self.now) (settled_of self.now)
            (marked_of self.now) (ImagesOf self.now.first self.now.calls)) }
        ensures none_fails { IfOk result (λ disks. All (λ disk. disk.failing ≡ []) disks.items) }
    {
        let mut disks = Vec::new(self.alloc);
        disks.push(MemoryDisk::new(self.alloc, &self.settled, Vec::new(self.alloc))?)?;
        disks.push(MemoryDisk::new(self.alloc, &self.held, Vec::new(self.alloc))?)?;
        disks.push(MemoryDisk::new(self.alloc, &self.marked, Vec::new(self.alloc))?)?;
        Ok(disks)
    }

    // Counts a call, and says whether it is to fail.
    fn fails(&mut self) -> bool
        ensures same { HasNothing self.old self.new }
        ensures counted { IsTrue result → Rose self.old.faults self.new.faults }
        ensures later { self.old.faults ≤ self.new.faults }
    {
        self.count = self.count.saturating_add(1);
        let fails = self.failing.contains(&self.count);
        if fails {
            count_fault(&mut self.faults);
        }
        fails
    }

    // Counts a fault that no list told.
    fn fault(&mut self) -> Failed
        ensures same { HasNothing self.old self.new }
        ensures counted { Rose self.old.faults self.new.faults }
        ensures later { self.old.faults ≤ self.new.faults }
    {
        count_fault(&mut self.faults);
        Failed
    }

    fn look(&mut self) -> Result<(), Failed>
        ensures takes { Takes Call.Looked self.old self.new result }
        ensures cause { HasCause self.old.faults self.new.faults result }
    {
        if self.fails() {
            return Err(Failed);
        }
        match self.record_look() {
            Ok(()) => Ok(()),
            Err(_) => Err(self.fault()),
        }
    }

    fn overwrite(&mut self, at: u64, bytes: &[u8]) -> Result<(), Failed>
        requires { at ≤ length (seen_of self.old) }
        ensures takes { Takes (Call.Wrote at bytes.now) self.old self.new result }
        ensures cause { HasCause self.old.faults self.new.faults result }
    {
        if self.fails() {
            return Err(Failed);
        }
        match self.record_write(at, bytes) {
            Ok(()) => Ok(()),
            Err(_) => Err(self.fault()),
        }
    }

    fn shorten(&mut self, end: u64) -> Result<(), Failed>
        ensures takes { Takes (Call.Cut end) self.old self.new result }
        ensures cause { HasCause self.old.faults self.new.faults result }
    {
        if self.fails() {
            return Err(Failed);
        }
        match self.record_cut(end) {
            Ok(()) => Ok(()),
            Err(_) => Err(self.fault()),
        }
    }

    fn settle(&mut self) -> Result<(), Failed>
        ensures takes { Takes Call.Synced self.old self.new result }
        ensures cause { HasCause self.old.faults self.new.faults result }
    {
        if self.fails() {
            return Err(Failed);
        }
        match self.record_sync() {
            Ok(()) => Ok(()),
            Err(_) => Err(self.fault()),
        }
    }

    #[tactic(auto, using(crate::proofs::Pushed::push_seen, crate::proofs::Pushed::push_settled, crate::proofs::Pushed::push_marked))]
    fn record_look(&mut self) -> Result<(), NoMemory>
        ensures ok { OnOk result (HasDone Call.Looked self.old self.new) }
        ensures err { OnErr result (HasNothing self.old self.new) }
        ensures faults { self.new.faults ≡ self.old.faults }
    {
        self.calls.push(Call::Looked)?;
        Ok(())
    }

    fn record_write(&mut self, at: u64, bytes: &[u8]) -> Result<(), NoMemory>
        requires { at ≤ length (seen_of self.old) }
        ensures ok { OnOk result (HasDone (Call.Wrote at bytes.now) self.old self.new) }
        ensures err { OnErr result (HasNothing self.old self.new) }
        ensures faults { self.new.faults ≡ self.old.faults }
    {
        let held = overwritten(self.alloc, &self.held, at as usize, bytes)?;
        let wild = vec![in self.alloc; 255; bytes.len()]?;
        let marked = overwritten(self.alloc, &self.marked, at as usize, &wild)?;
        let copy = Bytes::of(bytes.to_vec(self.alloc)?);
        self.calls.push(Call::Wrote(at, copy))?;
        self.held = held;
        self.marked = marked;
        Ok(())
    }

    #[tactic(auto, using(crate::proofs::Pushed::push_seen, crate::proofs::Pushed::push_settled, crate::proofs::Pushed::push_marked))]
    fn record_cut(&mut self, end: u64) -> Result<(), NoMemory>
        ensures ok { OnOk result (HasDone (Call.Cut end) self.old self.new) }
        ensures err { OnErr result (HasNothing self.old self.new) }
        ensures faults { self.new.faults ≡ self.old.faults }
    {
        self.calls.push(Call::Cut(end))?;
        self.held.truncate(end as usize);
        self.marked.truncate(end as usize);
        Ok(())
    }

    #[tactic(auto, using(crate::proofs::Pushed::push_seen, crate::proofs::Pushed::push_settled, crate::proofs::Pushed::push_marked))]
    fn record_sync(&mut self) -> Result<(), NoMemory>
        ensures ok { OnOk result (HasDone Call.Synced self.old self.new) }
        ensures err { OnErr result (HasNothing self.old self.new) }
        ensures faults { self.new.faults ≡ self.old.faults }
    {
        let settled = self.held.to_vec(self.alloc)?;
        let marked = self.held.to_vec(self.alloc)?;
        self.calls.push(Call::Synced)?;
        self.settled = settled;
        self.marked = marked;
        Ok(())
    }
}

impl Disk for MemoryDisk {
    ghost tells = { λ _. true };

    ghost seen = { seen_of };

    ghost images = { λ disk image. ImagesOf disk.first disk.calls image };

    ghost moment = { λ disk. length disk.calls };

    ghost left_since = { λ disk t image. LeftSince disk.first disk.calls t image };

    ghost faults = { λ disk. disk.faults };

    ghost seen_is_image = { λ disk told. seen_law disk };

    ghost counts_now = { λ disk t image le now. counts_law disk.first disk.calls t image le now };

    ghost only_now = { λ disk image left. only_law disk.first disk.calls image left };

    fn faults(&self) -> u64 {
        self.faults
    }

    fn length(&mut self) -> Result<u64, Failed> {
        self.look()?;
        Ok(self.bytes().len() as u64)
    }

    fn read_at(&mut self, at: u64, buf: &mut [u8]) -> Result<(), Failed> {
        self.look()?;
        copy_part(self.bytes(), at as usize, buf);
        Ok(())
    }

    fn write_at(&mut self, at: u64, bytes: &[u8]) -> Result<(), Failed> {
        self.overwrite(at, bytes)?;
        Ok(())
    }

    fn cut(&mut self, length: u64) -> Result<(), Failed> {
        self.shorten(length)?;
        Ok(())
    }

    fn sync(&mut self) -> Result<(), Failed> {
        self.settle()?;
        Ok(())
    }
}
