ghost use Rattle.std.specs.Prelude.{◌≡◌};

use crate::UpdateField;
use dnr_base::NoMemory;
use rule_spec::PlacedRefusal;
use std::alloc::{AllocError, AllocFailed};

/// Why an object is no update.
#[derive(Debug, Drop)]
pub enum UpdateFault {
    /// This field, the first of the update's fields at fault, is missing or has another form.
    BadField(UpdateField),
    /// The first rule at fault of the rules that it brings. Of an installation the refusal names its ruleset.
    RuleRefused(PlacedRefusal),
    /// Memory ran out.
    NoMemory,
}

impl From<AllocError> for UpdateFault {
    ghost use Rattle.line_spec.specs.declared.update_fault.UpdateFault.TheVariants.{NoMemory};

    ghost from_gives = { λ _ e. e ≡ NoMemory };

    fn from(_: AllocError) -> UpdateFault {
        UpdateFault::NoMemory
    }
}

impl<T: Drop> From<AllocFailed<T>> for UpdateFault {
    ghost use Rattle.line_spec.specs.declared.update_fault.UpdateFault.TheVariants.{NoMemory};

    ghost from_gives = { λ _ e. e ≡ NoMemory };

    fn from(_: AllocFailed<T>) -> UpdateFault {
        UpdateFault::NoMemory
    }
}

impl From<NoMemory> for UpdateFault {
    ghost use Rattle.line_spec.specs.declared.update_fault.UpdateFault.TheVariants.{NoMemory};

    ghost from_gives = { λ _ e. e ≡ NoMemory };

    fn from(_: NoMemory) -> UpdateFault {
        UpdateFault::NoMemory
    }
}
