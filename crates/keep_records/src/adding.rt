ghost use Rattle.std.specs.Prelude.{◌≡◌, ◌+◌, ◌<◌, ◌≤◌, List, ℕ, length, OnOk, IsTrue};
ghost use Rattle.dnr_base.specs.Faults.{HasCause};
ghost use Rattle.keep_disk.specs.Moments.{LeavesOnly};
ghost use Rattle.keep_records.specs.Records.{behind_gate};
ghost use Rattle.keep_records.specs.Ends.{max_file, AllEnd, MayAdd, Adds};

use dnr_base::Failed;
use keep_disk::{Disk, write_through};

/// Writes a record behind the closed gate byte at the place where the records end, and then opens the gate. `bytes`
/// are those of `record_behind_gate`.
///
/// `Failed`: the disk failed. A crash then leaves the records with the new one or without it.
pub fn append<D: Disk>(disk: &mut D, place: u64, payload: &[u8], bytes: &[u8]) -> Result<(), Failed>
    requires ends { IsTrue (D.tells disk.old) → AllEnd (D.images disk.old) place }
    requires some { 0 < length payload.now }
    requires fits { place + 6 + length payload.now ≤ max_file }
    requires bytes { bytes.now ≡ behind_gate payload.now }
    ensures added { OnOk result (IsTrue (D.tells disk.old) → (image : List ℕ) →
        D.images disk.new image →
        Adds (D.images disk.old) (place + 5 + length payload.now) payload.now image) }
    ensures any_moment { IsTrue (D.tells disk.old) → LeavesOnly D.moment D.left_since
        disk.old disk.new (MayAdd (D.images disk.old) payload.now) }
    ensures told { D.tells disk.new ≡ D.tells disk.old }
    ensures cause { HasCause (D.faults disk.old) (D.faults disk.new) result }
{
    write_through(disk, place + 1, bytes)?;
    write_through(disk, place, &[1])?;
    Ok(())
}
