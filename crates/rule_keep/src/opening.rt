// The bytes of a file that is opened.
ghost use Rattle.std.specs.Prelude.{◌≡◌, ◌<◌, ◌≤◌, ℕ, length, IfOk, OnOk, IsErrOf, IsTrue};
ghost use Rattle.dnr_base.specs.Faults.{HasCauseOf};
ghost use Rattle.keep_disk.specs.Images.{Only, AddsNone};
ghost use Rattle.keep_disk.specs.Moments.{LeavesOnly};
ghost use Rattle.keep_records.specs.Ends.{max_file};

use crate::refusals::OpenRefusal;
use keep_disk::Disk;
use keep_records::{ReadRefusal, read_all};
use std::alloc::Global;

// Brings all to the disk, and reads all of it.
pub(crate) fn bytes_of<D: Disk>(alloc: Global, disk: &mut D) -> Result<Vec<u8>, OpenRefusal>
    ensures bytes { IfOk result (λ bytes. IsTrue (D.tells disk.old) →
        bytes.items ≡ D.seen disk.old) }
    ensures short { IfOk result (λ bytes. length bytes.items ≤ max_file) }
    ensures too_long { IsErrOf result OpenRefusal.KeepTooLong → IsTrue (D.tells disk.old) →
        max_file < length (D.seen disk.old) }
    ensures no_memory { IsErrOf result OpenRefusal.NoMemory → IsTrue (D.tells disk.old) →
        length (D.seen disk.old) ≤ max_file }
    ensures no_record { (offset : ℕ) → IsErrOf result (OpenRefusal.BadRecord offset) → ⊥ }
    ensures no_host { IsErrOf result OpenRefusal.HostFault → ⊥ }
    ensures seen { D.seen disk.new ≡ D.seen disk.old }
    ensures durable { OnOk result (IsTrue (D.tells disk.old) →
        Only (D.seen disk.new) (D.images disk.new)) }
    ensures crash { AddsNone (D.images disk.old) (D.images disk.new) }
    ensures any_moment { LeavesOnly D.moment D.left_since disk.old disk.new (D.images disk.old) }
    ensures told { D.tells disk.new ≡ D.tells disk.old }
    ensures cause { HasCauseOf OpenRefusal.DiskFault
        (D.faults disk.old) (D.faults disk.new) result }
{
    match read_all(alloc, disk) {
        Ok(bytes) => Ok(bytes),
        Err(ReadRefusal::DiskFault) => Err(OpenRefusal::DiskFault),
        Err(ReadRefusal::KeepTooLong) => Err(OpenRefusal::KeepTooLong),
        Err(ReadRefusal::NoMemory) => Err(OpenRefusal::NoMemory),
    }
}
