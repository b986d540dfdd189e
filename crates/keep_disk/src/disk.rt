ghost use Rattle.std.specs.Prelude.{◌≡◌, ◌+◌, ◌≤◌, Bool, List, ℕ, length, slice_range, take};
ghost use Rattle.std.specs.Prelude.{IfOk, OnOk, OnErr, IsTrue};
ghost use Rattle.dnr_base.specs.Faults.{HasCause};
ghost use Rattle.keep_disk.specs.Images.{written, Torn, Shortened, Follows, AddsNone, Only};
ghost use Rattle.keep_disk.specs.Moments.{Elapses};

use dnr_base::Failed;

/// A file that can be read and written at places. What it means, where it tells that, is by the images that a crash
/// may leave: an image is the bytes of the file then.
pub trait Disk {
    /// Whether it tells its meanings. Where it does not, nothing is known of what a read gives.
    ghost tells: { Self → Bool };

    /// What a read gives.
    ghost seen: { Self → List ℕ };

    /// The images that a crash now may leave.
    ghost images: { Self → List ℕ → Type 0 };

    /// The time, as a number that does not fall.
    ghost moment: { Self → ℕ };

    /// The images that a crash at some moment since that time may have left.
    ghost left_since: { Self → ℕ → List ℕ → Type 0 };

    /// How many faults there were.
    ghost faults: { Self → ℕ };

    /// The count of faults. It never falls, and stands still at the greatest `u64`.
    fn faults(&self) -> u64
        ensures { result ≡ faults self.now };

    /// How many bytes the file has.
    ///
    /// `Failed`: the disk failed, and the count of faults rose.
    fn length(&mut self) -> Result<u64, Failed>
        ensures length { IfOk result (λ count. IsTrue (tells self.old) →
            count ≡ length (seen self.old)) }
        ensures seen { seen self.new ≡ seen self.old }
        ensures crash { AddsNone (images self.old) (images self.new) }
        ensures time { Elapses (moment self.old) (moment self.new)
            (left_since self.old) (left_since self.new) (images self.new) }
        ensures told { tells self.new ≡ tells self.old }
        ensures cause { HasCause (faults self.old) (faults self.new) result };

    /// Fills `buf` with the bytes at a place. The range lies in the file.
    ///
    /// `Failed`: the disk failed, and the count of faults rose.
    fn read_at(&mut self, at: u64, buf: &mut [u8]) -> Result<(), Failed>
        requires { IsTrue (tells self.old) → at + length buf.old ≤ length (seen self.old) }
        ensures bytes { OnOk result (IsTrue (tells self.old) →
            buf.new ≡ slice_range (seen self.old) at (at + length buf.old)) }
        ensures seen { seen self.new ≡ seen self.old }
        ensures crash { AddsNone (images self.old) (images self.new) }
        ensures time { Elapses (moment self.old) (moment self.new)
            (left_since self.old) (left_since self.new) (images self.new) }
        ensures told { tells self.new ≡ tells self.old }
        ensures cause { HasCause (faults self.old) (faults self.new) result };

    /// Writes over what is there, and past the end; the place is at most the file's length. Until a sync succeeds a
    /// crash may leave any bytes there and any end between the old and the new one.
    ///
    /// `Failed`: the disk failed, and the count of faults rose. Any part of the work may have been done.
    fn write_at(&mut self, at: u64, bytes: &[u8]) -> Result<(), Failed>
        requires { IsTrue (tells self.old) → at ≤ length (seen self.old) }
        ensures written { OnOk result (IsTrue (tells self.old) →
            seen self.new ≡ written at bytes.now (seen self.old)) }
        ensures part { OnErr result (IsTrue (tells self.old) →
            Torn at (length bytes.now) (seen self.old) (seen self.new)) }
        ensures crash { Follows (Torn at (length bytes.now)) (images self.old) (images self.new) }
        ensures time { Elapses (moment self.old) (moment self.new)
            (left_since self.old) (left_since self.new) (images self.new) }
        ensures told { tells self.new ≡ tells self.old }
        ensures cause { HasCause (faults self.old) (faults self.new) result };

    /// Cuts the file to a length, where it is longer. Until a sync succeeds a crash may leave any end between the
    /// old and the new one.
    ///
    /// `Failed`: the disk failed, and the count of faults rose. Any part of the work may have been done.
    fn cut(&mut self, length: u64) -> Result<(), Failed>
        ensures cut { OnOk result (IsTrue (tells self.old) →
            seen self.new ≡ take length (seen self.old)) }
        ensures part { OnErr result (IsTrue (tells self.old) →
            Shortened length (seen self.old) (seen self.new)) }
        ensures crash { Follows (Shortened length) (images self.old) (images self.new) }
        ensures time { Elapses (moment self.old) (moment self.new)
            (left_since self.old) (left_since self.new) (images self.new) }
        ensures told { tells self.new ≡ tells self.old }
        ensures cause { HasCause (faults self.old) (faults self.new) result };

    /// Brings all to the disk: after `Ok` a crash leaves what a read gives.
    ///
    /// `Failed`: the disk failed, and the count of faults rose. Any part of the work may have been done.
    fn sync(&mut self) -> Result<(), Failed>
        ensures durable { OnOk result (IsTrue (tells self.old) →
            Only (seen self.new) (images self.new)) }
        ensures seen { seen self.new ≡ seen self.old }
        ensures crash { AddsNone (images self.old) (images self.new) }
        ensures time { Elapses (moment self.old) (moment self.new)
            (left_since self.old) (left_since self.new) (images self.new) }
        ensures told { tells self.new ≡ tells self.old }
        ensures cause { HasCause (faults self.old) (faults self.new) result };

    /// What a read gives is one of the images that a crash now may leave.
    ghost seen_is_image: { (disk : Self) → IsTrue (tells disk) → images disk (seen disk) };

    /// This moment is one of those since an earlier one.
    ghost counts_now: { (disk : Self) (t : ℕ) (image : List ℕ) → t ≤ moment disk →
        images disk image → left_since disk t image };

    /// Since this moment there is no other.
    ghost only_now: { (disk : Self) (image : List ℕ) →
        left_since disk (moment disk) image → images disk image };
}
