use dnr_base::NoMemory;
use std::alloc::{AllocError, AllocFailed};

/// Why a line is not answered. The engine goes on from the state in which it was.
#[derive(Clone, Copy, Debug, PartialEq, Eq)]
pub enum AskRefusal {
    /// The answer takes so many bytes, and there is room for fewer.
    Room(usize),
    /// Memory ran out.
    NoMemory,
}

impl From<NoMemory> for AskRefusal {
    ghost use Rattle.std.specs.Prelude.{◌≡◌};
    ghost use Rattle.engine.specs.declared.refusal.AskRefusal.TheVariants as refusal;

    ghost from_gives = { λ _ r. r ≡ refusal.NoMemory };

    fn from(_: NoMemory) -> AskRefusal {
        AskRefusal::NoMemory
    }
}

/// Why an engine is not opened.
#[derive(Debug, Drop)]
pub enum OpenRefusal {
    /// The words ask for no session.
    Usage,
    /// A file or an installation is refused: the line that says so, with its LF.
    Refused(String),
    /// A list or a rules file is named that is not there.
    NoFile,
    /// A file has more bytes than it may have.
    TooLong,
    /// Memory ran out.
    NoMemory,
}

impl From<NoMemory> for OpenRefusal {
    ghost use Rattle.std.specs.Prelude.{◌≡◌};
    ghost use Rattle.engine.specs.declared.refusal.OpenRefusal.TheVariants as refusal;

    ghost from_gives = { λ _ r. r ≡ refusal.NoMemory };

    fn from(_: NoMemory) -> OpenRefusal {
        OpenRefusal::NoMemory
    }
}
