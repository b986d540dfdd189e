ghost use Rattle.std.specs.Prelude.{◌≡◌};
ghost use Rattle.rule_keep.specs.Refusals.{refusal_by};

use dnr_base::{Failed, NoMemory};
use std::alloc::AllocFailed;

/// Why a file was not opened.
#[derive(Clone, Copy, Debug, PartialEq, Eq)]
pub enum OpenRefusal {
    /// The disk failed.
    DiskFault,
    /// The file has more than 67,108,864 bytes.
    KeepTooLong,
    /// The record at this place is the first whose payload is no dynamic update of the extension, or one that is
    /// refused after those before it.
    BadRecord(u64),
    /// The pattern host failed at a rule's pattern.
    HostFault,
    /// Memory ran out.
    NoMemory,
}

impl From<NoMemory> for OpenRefusal {
    ghost use Rattle.std.specs.Prelude.{◌≡◌};
    ghost use Rattle.rule_keep.specs.declared.refusals.OpenRefusal.TheVariants.{NoMemory};

    ghost from_gives = { λ _ refusal. refusal ≡ NoMemory };

    fn from(_: NoMemory) -> Self {
        OpenRefusal::NoMemory
    }
}

impl<T: Drop> From<AllocFailed<T>> for OpenRefusal {
    ghost use Rattle.std.specs.Prelude.{◌≡◌};
    ghost use Rattle.rule_keep.specs.declared.refusals.OpenRefusal.TheVariants.{NoMemory};

    ghost from_gives = { λ _ refusal. refusal ≡ NoMemory };

    fn from(_: AllocFailed<T>) -> Self {
        OpenRefusal::NoMemory
    }
}

impl From<Failed> for OpenRefusal {
    ghost use Rattle.std.specs.Prelude.{◌≡◌};
    ghost use Rattle.rule_keep.specs.declared.refusals.OpenRefusal.TheVariants.{DiskFault};

    ghost from_gives = { λ _ refusal. refusal ≡ DiskFault };

    fn from(_: Failed) -> Self {
        OpenRefusal::DiskFault
    }
}

/// Why an update was not kept.
#[derive(Clone, Copy, Debug, PartialEq, Eq)]
pub enum PutRefusal {
    /// The disk failed. The file is to be opened again; the update may be there then.
    DiskFault,
    /// The file would have more than 67,108,864 bytes. Nothing was written.
    KeepFull,
    /// Memory ran out. Nothing was written.
    NoMemory,
}

impl From<NoMemory> for PutRefusal {
    ghost use Rattle.std.specs.Prelude.{◌≡◌};
    ghost use Rattle.rule_keep.specs.declared.refusals.PutRefusal.TheVariants.{NoMemory};

    ghost from_gives = { λ _ refusal. refusal ≡ NoMemory };

    fn from(_: NoMemory) -> Self {
        PutRefusal::NoMemory
    }
}

impl<T: Drop> From<AllocFailed<T>> for PutRefusal {
    ghost use Rattle.std.specs.Prelude.{◌≡◌};
    ghost use Rattle.rule_keep.specs.declared.refusals.PutRefusal.TheVariants.{NoMemory};

    ghost from_gives = { λ _ refusal. refusal ≡ NoMemory };

    fn from(_: AllocFailed<T>) -> Self {
        PutRefusal::NoMemory
    }
}

// Why a payload was not taken.
#[derive(Clone, Copy, Debug, PartialEq, Eq)]
pub(crate) enum Stop {
    // It is no dynamic update of the extension, or one that is refused.
    Refused,
    // The pattern host failed at a rule's pattern.
    HostFault,
    // Memory ran out.
    NoMemory,
}

// What it is to who opens the file, where the payload's record stands at this place.
pub(crate) fn refusal_of(stop: Stop, place: u64) -> OpenRefusal
    ensures { result ≡ refusal_by stop place }
{
    match stop {
        Stop::Refused => OpenRefusal::BadRecord(place),
        Stop::HostFault => OpenRefusal::HostFault,
        Stop::NoMemory => OpenRefusal::NoMemory,
    }
}
