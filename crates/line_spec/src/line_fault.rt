ghost use Rattle.std.specs.Prelude.{◌≡◌};

use crate::CommandPath;
use dnr_base::NoMemory;
use dnr_spec::ViewRefusal;
use rule_spec::PlacedRefusal;
use std::alloc::{AllocError, AllocFailed};

/// Why a script line is no command.
#[derive(Debug, Drop)]
pub enum LineFault {
    /// It is no JSON text (RFC 8259).
    BadJson,
    /// This field, the first of the command's fields at fault, is missing or has another form.
    BadCommand(CommandPath),
    /// The text of this field is no URL that the engine decides, for this reason, which is not `NoMemory`.
    BadUrl(CommandPath, ViewRefusal),
    /// Of the rules that an update brings, this is the first that is refused. Of an installation the refusal names its
    /// ruleset.
    RuleRefused(PlacedRefusal),
    /// The same of an update of a batch, at this place of the batch, counted from 0.
    InBatch(u32, PlacedRefusal),
    /// Memory ran out.
    NoMemory,
}

impl From<AllocError> for LineFault {
    ghost use Rattle.line_spec.specs.declared.line_fault.LineFault.TheVariants.{NoMemory};

    ghost from_gives = { λ _ e. e ≡ NoMemory };

    fn from(_: AllocError) -> LineFault {
        LineFault::NoMemory
    }
}

impl<T: Drop> From<AllocFailed<T>> for LineFault {
    ghost use Rattle.line_spec.specs.declared.line_fault.LineFault.TheVariants.{NoMemory};

    ghost from_gives = { λ _ e. e ≡ NoMemory };

    fn from(_: AllocFailed<T>) -> LineFault {
        LineFault::NoMemory
    }
}

impl From<NoMemory> for LineFault {
    ghost use Rattle.line_spec.specs.declared.line_fault.LineFault.TheVariants.{NoMemory};

    ghost from_gives = { λ _ e. e ≡ NoMemory };

    fn from(_: NoMemory) -> LineFault {
        LineFault::NoMemory
    }
}
