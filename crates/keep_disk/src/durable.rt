ghost use Rattle.std.specs.Prelude.{◌≡◌, ◌≤◌, length, take, OnOk, IsTrue};
ghost use Rattle.dnr_base.specs.Faults.{HasCause};
ghost use Rattle.keep_disk.specs.Images.{written, Torn, Shortened, Only, ComesFrom};
ghost use Rattle.keep_disk.specs.Moments.{LeavesOnly};

use crate::Disk;
use dnr_base::Failed;

/// Writes and brings it to the disk. A crash at any moment within leaves an image with any part of the work.
///
/// `Failed`: the disk failed, and the count of faults rose.
pub fn write_through<D: Disk>(disk: &mut D, at: u64, bytes: &[u8]) -> Result<(), Failed>
    requires { IsTrue (D.tells disk.old) → at ≤ length (D.seen disk.old) }
    ensures written { OnOk result (IsTrue (D.tells disk.old) →
        D.seen disk.new ≡ written at bytes.now (D.seen disk.old)) }
    ensures durable { OnOk result (IsTrue (D.tells disk.old) →
        Only (D.seen disk.new) (D.images disk.new)) }
    ensures any_moment { LeavesOnly D.moment D.left_since disk.old disk.new
        (ComesFrom (Torn at (length bytes.now)) (D.images disk.old)) }
    ensures told { D.tells disk.new ≡ D.tells disk.old }
    ensures cause { HasCause (D.faults disk.old) (D.faults disk.new) result }
{
    disk.write_at(at, bytes)?;
    disk.sync()
}

/// Cuts and brings it to the disk. A crash at any moment within leaves an image with any part of the work.
///
/// `Failed`: the disk failed, and the count of faults rose.
pub fn cut_through<D: Disk>(disk: &mut D, length: u64) -> Result<(), Failed>
    ensures cut { OnOk result (IsTrue (D.tells disk.old) →
        D.seen disk.new ≡ take length (D.seen disk.old)) }
    ensures durable { OnOk result (IsTrue (D.tells disk.old) →
        Only (D.seen disk.new) (D.images disk.new)) }
    ensures any_moment { LeavesOnly D.moment D.left_since disk.old disk.new
        (ComesFrom (Shortened length) (D.images disk.old)) }
    ensures told { D.tells disk.new ≡ D.tells disk.old }
    ensures cause { HasCause (D.faults disk.old) (D.faults disk.new) result }
{
    disk.cut(length)?;
    disk.sync()
}
