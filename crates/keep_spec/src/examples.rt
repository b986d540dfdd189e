//! Examples of files. Each is stated in `specs/Examples.antt` and computed from the definitions by the prover; the
//! functions do nothing.

ghost use Rattle.keep_spec.specs.Examples.{ShortFilesKeepNothing, RecordsKeepUpdates};
ghost use Rattle.keep_spec.specs.Examples.{OtherPayloadsAreNone, UpdatesAreAcceptedOnce};

/// An empty file keeps nothing, and neither does one byte.
#[tactic(auto, using(crate::proofs::Computed::short_files_keep_nothing))]
pub fn short_files_keep_nothing()
    ensures { ShortFilesKeepNothing }
{}

/// A file keeps the update of its record, and ends at the next gate byte.
#[tactic(auto, using(crate::proofs::Computed::records_keep_updates))]
pub fn records_keep_updates()
    ensures { RecordsKeepUpdates }
{}

/// A record may hold any bytes; those that are no update are kept as none.
#[tactic(auto, using(crate::proofs::Computed::other_payloads_are_none))]
pub fn other_payloads_are_none()
    ensures { OtherPayloadsAreNone }
{}

/// An update is accepted once: then its rule is there.
#[tactic(auto, using(crate::proofs::Computed::updates_are_accepted_once))]
pub fn updates_are_accepted_once()
    ensures { UpdatesAreAcceptedOnce }
{}
