ghost use Rattle.std.specs.Prelude.{◌≡◌};

use dnr_base::{NoMemory, Text};
use load_spec::ManifestPath;
use rule_spec::PlacedRefusal;
use std::alloc::{AllocError, AllocFailed};

/// Why an extension is not read from its folder. A file is named as it was asked for, from the folder on.
#[derive(Debug, Drop)]
pub enum ManifestRefusal {
    /// The shelf failed, and its count of faults rose.
    ReadFault,
    /// This file has more than 33,554,432 bytes.
    FileTooLong(Text),
    /// This file is no JSON text (RFC 8259).
    BadJson(Text),
    /// This field of the manifest, the first at fault, is missing or has another form.
    BadManifest(ManifestPath),
    /// This rules file has a rule that is refused so. Its cause is not want of memory.
    RuleRefused(Text, PlacedRefusal),
    /// Memory ran out.
    NoMemory,
}

impl From<AllocError> for ManifestRefusal {
    ghost use Rattle.manifest_read.specs.declared.refusal.ManifestRefusal.TheVariants.{NoMemory};

    ghost from_gives = { λ _ e. e ≡ NoMemory };

    fn from(_: AllocError) -> ManifestRefusal {
        ManifestRefusal::NoMemory
    }
}

impl<T: Drop> From<AllocFailed<T>> for ManifestRefusal {
    ghost use Rattle.manifest_read.specs.declared.refusal.ManifestRefusal.TheVariants.{NoMemory};

    ghost from_gives = { λ _ e. e ≡ NoMemory };

    fn from(_: AllocFailed<T>) -> ManifestRefusal {
        ManifestRefusal::NoMemory
    }
}

impl From<NoMemory> for ManifestRefusal {
    ghost use Rattle.manifest_read.specs.declared.refusal.ManifestRefusal.TheVariants.{NoMemory};

    ghost from_gives = { λ _ e. e ≡ NoMemory };

    fn from(_: NoMemory) -> ManifestRefusal {
        ManifestRefusal::NoMemory
    }
}
