ghost use Rattle.session_load.specs.declared.stop.Stop.TheVariants as stop;

use dnr_base::NoMemory;
use std::alloc::{AllocError, AllocFailed};

/// Why a command ends before it answers.
#[derive(Debug, Drop)]
pub enum Stop {
    /// A file or an installation is refused: the line that says so, with its LF.
    Refused(String),
    /// The shelf failed, and its count of faults rose.
    ReadFault,
    /// A file has more bytes than it may have.
    FileTooLong,
    /// Memory ran out.
    NoMemory,
}

impl From<NoMemory> for Stop {
    ghost use Rattle.std.specs.Prelude.{◌≡◌};

    ghost from_gives = { λ _ e. e ≡ stop.NoMemory };

    fn from(_: NoMemory) -> Stop {
        Stop::NoMemory
    }
}

impl From<AllocError> for Stop {
    ghost use Rattle.std.specs.Prelude.{◌≡◌};

    ghost from_gives = { λ _ e. e ≡ stop.NoMemory };

    fn from(_: AllocError) -> Stop {
        Stop::NoMemory
    }
}

impl<T: Drop> From<AllocFailed<T>> for Stop {
    ghost use Rattle.std.specs.Prelude.{◌≡◌};

    ghost from_gives = { λ _ e. e ≡ stop.NoMemory };

    fn from(_: AllocFailed<T>) -> Stop {
        Stop::NoMemory
    }
}
