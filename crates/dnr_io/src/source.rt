ghost use Rattle.std.specs.Prelude.{◌≡◌, ℕ, List, Option, None, is_some};
ghost use Rattle.std.specs.Io.{ReadsAtMost};
ghost use Rattle.std.specs.Io.KnownBytes.{ReadConsumes};
ghost use Rattle.dnr_base.specs.Faults.{HasCause};
ghost use Rattle.dnr_io.specs.Shelf.{Names};

use crate::Failed;

/// What gives bytes from first to last.
pub trait Source {
    /// The bytes that are left, where the source tells them.
    ghost left: { Self → Option (List ℕ) };

    /// What each name holds, where the source is a shelf that tells it.
    ghost files: { Self → Option Names } = { λ _. None };

    /// How often a file was started, where the source is a shelf. The count stands still at the greatest `u64`.
    ghost starts: { Self → ℕ } = { λ _. 0 };

    /// How many faults there were.
    ghost faults: { Self → ℕ };

    /// The count of faults. It never falls, and stands still at the greatest `u64`.
    fn faults(&self) -> u64
        ensures { result ≡ faults self.now };

    /// Takes the first bytes that are left into `buf`, and says how many. It takes none of them at the
    /// end alone, or where `buf` is empty.
    ///
    /// `Failed` takes none.
    fn read(&mut self, buf: &mut [u8]) -> Result<usize, Failed>
        ensures bound { ReadsAtMost result buf.new }
        ensures bytes { ReadConsumes (left self.old) (left self.new) result buf.new }
        ensures told { is_some (left self.new) ≡ is_some (left self.old) }
        ensures files { files self.new ≡ files self.old }
        ensures starts { starts self.new ≡ starts self.old }
        ensures cause { HasCause (faults self.old) (faults self.new) result };
}
