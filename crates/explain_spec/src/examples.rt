//! Examples of explanations. Each is stated in `specs/Examples.antt` and computed from the definitions by the
//! prover; the functions do nothing.

ghost use Rattle.explain_spec.specs.Examples.{FrameIsNamed, NewestIsExplainedFirst, LinesAscend};

/// A page's rule is named with the frame by which it reaches what the page asks for.
#[tactic(auto, using(crate::proofs::Computed::frame_is_named))]
pub fn frame_is_named()
    ensures { FrameIsNamed }
{}

/// The newest extension is explained first, and one that says nothing too.
#[tactic(auto, using(crate::proofs::Computed::newest_is_explained_first))]
pub fn newest_is_explained_first()
    ensures { NewestIsExplainedFirst }
{}

/// The lines that a rule comes from ascend.
#[tactic(auto, using(crate::proofs::Computed::lines_ascend))]
pub fn lines_ascend()
    ensures { LinesAscend }
{}
