ghost use Rattle.std.specs.Prelude.{◌≡◌, ◌≤◌, ℕ, List, [], length, is_some, OnOk, OnErr, IsErrOf};
ghost use Rattle.dnr_base.specs.Faults.{HasCause, HasCauseOf, next_count};
ghost use Rattle.dnr_io.specs.Shelf.{Holds, HoldsMore, IsStarted};

use crate::{Failed, Source};

/// Why a shelf gives no bytes of a name.
#[derive(Clone, Copy, Debug, PartialEq, Eq)]
pub enum ShelfRefusal {
    /// The name can't be read, and the count of faults rose.
    Failed,
    /// The name holds more bytes than the limit.
    TooLong,
    /// Memory ran out.
    NoMemory,
}

/// Named files, of which one at a time is also read from first to last. Before a `start` there are no
/// bytes to read.
///
/// A name that holds nothing is a fault. No call changes what the names hold.
pub trait Shelf: Source {
    /// The names that it may be asked for. Of a shelf that says nothing of them these are all names; whoever is handed
    /// any shelf at all asks for none but those of which its own contract says that it may.
    ghost allows: { List ℕ → Type 0 } = { λ _. Unit {0} };

    /// Puts all bytes of a name in place of what `into` has, if they are at most `limit`. What is read
    /// from first to last stays where it is.
    ///
    /// A refusal leaves `into` empty.
    fn fetch(&mut self, name: &str, limit: u64, into: &mut Vec<u8>) -> Result<(), ShelfRefusal>
        requires { Self.allows name.now }
        ensures bytes { OnOk result (Holds (Self.files self.old) name.now into.new.items) }
        ensures within { OnOk result (length into.new.items ≤ limit) }
        ensures too_long { IsErrOf result ShelfRefusal.TooLong → HoldsMore (Self.files self.old) name.now limit }
        ensures refused { OnErr result (into.new.items ≡ []) }

        ensures files { Self.files self.new ≡ Self.files self.old }
        ensures left { Self.left self.new ≡ Self.left self.old }
        ensures starts { Self.starts self.new ≡ Self.starts self.old }
        ensures cause { HasCauseOf ShelfRefusal.Failed (Self.faults self.old) (Self.faults self.new) result };

    /// Makes `read` give the bytes of a name, from the first on.
    ///
    /// After `Failed`, `read` goes on as before.
    fn start(&mut self, name: &str) -> Result<(), Failed>
        requires { Self.allows name.now }
        ensures started { OnOk result (IsStarted (Self.files self.old) name.now (Self.left self.new)) }
        ensures counted { OnOk result (Self.starts self.new ≡ next_count (Self.starts self.old)) }
        ensures failed { OnErr result (Self.left self.new ≡ Self.left self.old) }
        ensures uncounted { OnErr result (Self.starts self.new ≡ Self.starts self.old) }

        ensures told { is_some (Self.left self.new) ≡ is_some (Self.left self.old) }
        ensures files { Self.files self.new ≡ Self.files self.old }
        ensures cause { HasCause (Self.faults self.old) (Self.faults self.new) result };
}
