//! Examples of what is said where rules are kept. Each is stated in `specs/Examples.antt` and computed from the
//! definitions by the prover; the functions do nothing.

ghost use Rattle.keep_run_spec.specs.Examples.{KeepTakesThreeWords, KeptFilesAreTold};
ghost use Rattle.keep_run_spec.specs.Examples.{OthersAreBadLines, KeptOnesCount, FullFilesTakeNone};

/// Four words are needed: a file, an extension by its name, and a script.
#[tactic(auto, using(crate::proofs::Computed::keep_takes_three_words))]
pub fn keep_takes_three_words()
    ensures { KeepTakesThreeWords }
{}

/// The first line counts what the file holds; a file that is refused has one line of its own.
#[tactic(auto, using(crate::proofs::Computed::kept_files_are_told))]
pub fn kept_files_are_told()
    ensures { KeptFilesAreTold }
{}

/// A dynamic update of the extension is asked for, and nothing else.
#[tactic(auto, using(crate::proofs::Computed::others_are_bad_lines))]
pub fn others_are_bad_lines()
    ensures { OthersAreBadLines }
{}

/// An update is accepted once: then its rule is there.
#[tactic(auto, using(crate::proofs::Computed::kept_ones_count))]
pub fn kept_ones_count()
    ensures { KeptOnesCount }
{}

/// A record that the file has no room for is not kept.
#[tactic(auto, using(crate::proofs::Computed::full_files_take_none))]
pub fn full_files_take_none()
    ensures { FullFilesTakeNone }
{}
