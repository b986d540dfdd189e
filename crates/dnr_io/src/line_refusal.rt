ghost use Rattle.std.specs.Prelude.{◌≡◌};
ghost use Rattle.dnr_io.specs.declared.line_refusal.LineRefusal.TheVariants as refusal;

use crate::{Failed, NoMemory};
use std::alloc::{AllocError, AllocFailed};

/// Why a line can't be given.
#[derive(Clone, Copy, Debug, PartialEq, Eq)]
pub enum LineRefusal {
    /// The source failed, and its count of faults rose.
    ReadFault,
    /// The line has more than `MAX_LINE` bytes before its LF, or before the end where it has none, or is
    /// one more than `MAX_LINES`.
    LineTooLong,
    /// Memory ran out.
    NoMemory,
}

impl From<Failed> for LineRefusal {
    ghost from_gives = { λ _ result. result ≡ refusal.ReadFault };

    fn from(_: Failed) -> LineRefusal {
        LineRefusal::ReadFault
    }
}

impl From<NoMemory> for LineRefusal {
    ghost from_gives = { λ _ result. result ≡ refusal.NoMemory };

    fn from(_: NoMemory) -> LineRefusal {
        LineRefusal::NoMemory
    }
}

impl From<AllocError> for LineRefusal {
    ghost from_gives = { λ _ result. result ≡ refusal.NoMemory };

    fn from(_: AllocError) -> LineRefusal {
        LineRefusal::NoMemory
    }
}

impl<T: Drop> From<AllocFailed<T>> for LineRefusal {
    ghost from_gives = { λ _ result. result ≡ refusal.NoMemory };

    fn from(_: AllocFailed<T>) -> LineRefusal {
        LineRefusal::NoMemory
    }
}
