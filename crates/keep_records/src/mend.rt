// The end of a file whose last record a crash cut off.
ghost use Rattle.std.specs.Prelude.{◌≡◌, ◌+◌, ◌<◌, ◌≤◌, length, get_or, OnOk, IsTrue};
ghost use Rattle.dnr_base.specs.Faults.{HasCause};
ghost use Rattle.keep_disk.specs.Images.{Only};
ghost use Rattle.keep_disk.specs.Moments.{LeavesOnly};
ghost use Rattle.keep_records.specs.Records.{payloads, end_of};
ghost use Rattle.keep_records.specs.Ends.{max_file, AllHave, Keeps};

use dnr_base::Failed;
use keep_disk::{Disk, cut_through, write_through};

// Cuts the file behind the byte at the place where its records end, where it is longer.
fn shorten<D: Disk>(disk: &mut D, place: u64, count: u64) -> Result<(), Failed>
    requires place { IsTrue (D.tells disk.old) → place ≡ end_of (D.seen disk.old) }
    requires count { IsTrue (D.tells disk.old) → count ≡ length (D.seen disk.old) }
    requires short { count ≤ max_file }
    requires fits { place + 1 ≤ max_file }
    ensures same { OnOk result (IsTrue (D.tells disk.old) →
        payloads (D.seen disk.new) ≡ payloads (D.seen disk.old)) }
    ensures shorter { OnOk result (IsTrue (D.tells disk.old) →
        length (D.seen disk.new) ≤ place + 1) }
    ensures durable { OnOk result (IsTrue (D.tells disk.old) →
        Only (D.seen disk.old) (D.images disk.old) → Only (D.seen disk.new) (D.images disk.new)) }
    ensures any_moment { IsTrue (D.tells disk.old) → Only (D.seen disk.old) (D.images disk.old) →
        LeavesOnly D.moment D.left_since disk.old disk.new (Keeps (payloads (D.seen disk.old))) }
    ensures told { D.tells disk.new ≡ D.tells disk.old }
    ensures cause { HasCause (D.faults disk.old) (D.faults disk.new) result }
{
    if count <= place + 1 {
        return Ok(());
    }
    cut_through(disk, place + 1)?;
    Ok(())
}

// Closes the gate at the place where the records of a file end, which has no byte behind it.
fn close_gate<D: Disk>(disk: &mut D, place: u64) -> Result<(), Failed>
    requires place { IsTrue (D.tells disk.old) → place ≡ end_of (D.seen disk.old) }
    requires short { IsTrue (D.tells disk.old) → length (D.seen disk.old) ≤ place + 1 }
    requires small { IsTrue (D.tells disk.old) → length (D.seen disk.old) ≤ max_file }
    requires fits { place + 1 ≤ max_file }
    ensures has { OnOk result (IsTrue (D.tells disk.old) →
        AllHave (D.images disk.new) (payloads (D.seen disk.old)) place) }
    ensures any_moment { IsTrue (D.tells disk.old) → Only (D.seen disk.old) (D.images disk.old) →
        LeavesOnly D.moment D.left_since disk.old disk.new (Keeps (payloads (D.seen disk.old))) }
    ensures told { D.tells disk.new ≡ D.tells disk.old }
    ensures cause { HasCause (D.faults disk.old) (D.faults disk.new) result }
{
    write_through(disk, place, &[0])?;
    Ok(())
}

// Mends the end of a file, of which a crash now leaves what a read gives.
fn mend<D: Disk>(disk: &mut D, place: u64, count: u64) -> Result<(), Failed>
    requires place { IsTrue (D.tells disk.old) → place ≡ end_of (D.seen disk.old) }
    requires count { IsTrue (D.tells disk.old) → count ≡ length (D.seen disk.old) }
    requires short { count ≤ max_file }
    requires fits { place + 1 ≤ max_file }
    ensures has { OnOk result (IsTrue (D.tells disk.old) →
        AllHave (D.images disk.new) (payloads (D.seen disk.old)) place) }
    ensures any_moment { IsTrue (D.tells disk.old) → Only (D.seen disk.old) (D.images disk.old) →
        LeavesOnly D.moment D.left_since disk.old disk.new (Keeps (payloads (D.seen disk.old))) }
    ensures told { D.tells disk.new ≡ D.tells disk.old }
    ensures cause { HasCause (D.faults disk.old) (D.faults disk.new) result }
{
    shorten(disk, place, count)?;
    close_gate(disk, place)?;
    Ok(())
}

/// Mends the end of a file with these bytes, unless the byte at the place where its records end is there and 0: cuts
/// what stands behind it, and writes it anew. The byte stays until then, so the record before it stands throughout.
///
/// `Failed`: the disk failed. A crash then leaves the same records.
pub fn mend_end<D: Disk>(disk: &mut D, bytes: &[u8], place: u64) -> Result<(), Failed>
    requires bytes { IsTrue (D.tells disk.old) → bytes.now ≡ D.seen disk.old }
    requires durable { IsTrue (D.tells disk.old) → Only (D.seen disk.old) (D.images disk.old) }
    requires place { place ≡ end_of bytes.now }
    requires short { length bytes.now ≤ max_file }
    requires fits { place + 1 ≤ max_file }
    ensures has { OnOk result (IsTrue (D.tells disk.old) →
        AllHave (D.images disk.new) (payloads (D.seen disk.old)) place) }
    ensures any_moment { IsTrue (D.tells disk.old) →
        LeavesOnly D.moment D.left_since disk.old disk.new (Keeps (payloads (D.seen disk.old))) }
    ensures told { D.tells disk.new ≡ D.tells disk.old }
    ensures cause { HasCause (D.faults disk.old) (D.faults disk.new) result }
{
    if is_closed(bytes, place) {
        return Ok(());
    }
    mend(disk, place, bytes.len() as u64)?;
    Ok(())
}

// Whether the byte at a place is there and 0.
fn is_closed(bytes: &[u8], place: u64) -> bool
    ensures { IsTrue result → (place < length bytes.now) × (get_or bytes.now place 0 ≡ 0) }
{
    let at = place as usize;
    at < bytes.len() && bytes[at] == 0
}
