ghost use Rattle.std.specs.Prelude.{◌≡◌, ◌<◌, ◌≤◌, length, IfOk, OnOk, IsErrOf, IsTrue};
ghost use Rattle.dnr_base.specs.Faults.{HasCauseOf};
ghost use Rattle.keep_disk.specs.Images.{Only, AddsNone};
ghost use Rattle.keep_disk.specs.Moments.{LeavesOnly};
ghost use Rattle.keep_records.specs.Ends.{max_file};

use dnr_base::{Failed, NoMemory};
use keep_disk::Disk;
use std::alloc::Global;

/// The bytes that a file has at most.
pub const MAX_FILE: u64 = 67_108_864;

/// Why a file was not read.
#[derive(Clone, Copy, Debug, PartialEq, Eq)]
pub enum ReadRefusal {
    /// The disk failed.
    DiskFault,
    /// The file has more than 67,108,864 bytes.
    KeepTooLong,
    /// No memory is left for its bytes.
    NoMemory,
}

impl From<NoMemory> for ReadRefusal {
    ghost use Rattle.std.specs.Prelude.{◌≡◌};
    ghost use Rattle.keep_records.specs.declared.read.ReadRefusal.TheVariants.{NoMemory};

    ghost from_gives = { λ _ refusal. refusal ≡ NoMemory };

    fn from(_: NoMemory) -> Self {
        ReadRefusal::NoMemory
    }
}

impl From<Failed> for ReadRefusal {
    ghost use Rattle.std.specs.Prelude.{◌≡◌};
    ghost use Rattle.keep_records.specs.declared.read.ReadRefusal.TheVariants.{DiskFault};

    ghost from_gives = { λ _ refusal. refusal ≡ DiskFault };

    fn from(_: Failed) -> Self {
        ReadRefusal::DiskFault
    }
}

/// Brings all to the disk, and reads all of it. Nothing is cut or written.
pub fn read_all<D: Disk>(alloc: Global, disk: &mut D) -> Result<Vec<u8>, ReadRefusal>
    ensures bytes { IfOk result (λ bytes. IsTrue (D.tells disk.old) →
        bytes.items ≡ D.seen disk.old) }
    ensures short { IfOk result (λ bytes. length bytes.items ≤ max_file) }
    ensures too_long { IsErrOf result ReadRefusal.KeepTooLong → IsTrue (D.tells disk.old) →
        max_file < length (D.seen disk.old) }
    ensures no_memory { IsErrOf result ReadRefusal.NoMemory → IsTrue (D.tells disk.old) →
        length (D.seen disk.old) ≤ max_file }
    ensures seen { D.seen disk.new ≡ D.seen disk.old }
    ensures durable { OnOk result (IsTrue (D.tells disk.old) →
        Only (D.seen disk.new) (D.images disk.new)) }
    ensures crash { AddsNone (D.images disk.old) (D.images disk.new) }
    ensures any_moment { LeavesOnly D.moment D.left_since disk.old disk.new (D.images disk.old) }
    ensures told { D.tells disk.new ≡ D.tells disk.old }
    ensures cause { HasCauseOf ReadRefusal.DiskFault
        (D.faults disk.old) (D.faults disk.new) result }
{
    disk.sync()?;
    let count = disk.length()?;
    if MAX_FILE < count {
        return Err(ReadRefusal::KeepTooLong);
    }
    let mut bytes = zeros(alloc, count as usize)?;
    disk.read_at(0, &mut bytes)?;
    Ok(bytes)
}

fn zeros(alloc: Global, count: usize) -> Result<Vec<u8>, NoMemory>
    ensures { IfOk result (λ bytes. length bytes.items ≡ count) }
{
    Ok(vec![in alloc; 0; count]?)
}
