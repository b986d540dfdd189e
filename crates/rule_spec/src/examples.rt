//! Examples of the precedence scan. Each is stated in `specs/Examples.antt` and computed from the definitions
//! by the prover; the functions do nothing.

ghost use Rattle.rule_spec.specs.Examples.{PageIsExempt, FrameWithoutUrlExemptsNothing};
ghost use Rattle.rule_spec.specs.Examples.{BlockPrevailsAcrossExtensions};
ghost use Rattle.rule_spec.specs.Examples.{RedirectWithoutTargetDecidesNothing};
ghost use Rattle.rule_spec.specs.Examples.{AllowOutdoesWeakerHeaderRules, AppendsKeepOutTheOthers};
ghost use Rattle.rule_spec.specs.Examples.{SetKeepsOutOtherExtensions};
ghost use Rattle.rule_spec.specs.Examples.{ValueIsAskedFor, ExcludedValueIsNone, HeadersAreCarried};
ghost use Rattle.rule_spec.specs.Examples.{RedirectNeedsAccess, BlockNeedsNoAccess};

/// An `allowAllRequests` for a page reaches what its frames ask for, and goes first at equal priority.
#[tactic(auto, using(crate::proofs::Computed::page_is_exempt))]
pub fn page_is_exempt()
    ensures { PageIsExempt }
{}

/// A frame without a URL is reached by nothing.
#[tactic(auto, using(crate::proofs::Computed::frame_without_url_exempts_nothing))]
pub fn frame_without_url_exempts_nothing()
    ensures { FrameWithoutUrlExemptsNothing }
{}

/// A block of an older extension prevails over a redirect of a newer one; of two redirects the newer prevails.
#[tactic(auto, using(crate::proofs::Computed::block_prevails_across_extensions))]
pub fn block_prevails_across_extensions()
    ensures { BlockPrevailsAcrossExtensions }
{}

/// A redirect to the request's own URL is no candidate.
#[tactic(auto, using(crate::proofs::Computed::redirect_without_target_decides_nothing))]
pub fn redirect_without_target_decides_nothing()
    ensures { RedirectWithoutTargetDecidesNothing }
{}

/// Header rules weaker than an `allow` of their extension are ignored; those of its own priority count.
#[tactic(auto, using(crate::proofs::Computed::allow_outdoes_weaker_header_rules))]
pub fn allow_outdoes_weaker_header_rules()
    ensures { AllowOutdoesWeakerHeaderRules }
{}

/// Behind an `append` only another takes effect.
#[tactic(auto, using(crate::proofs::Computed::appends_keep_out_the_others))]
pub fn appends_keep_out_the_others()
    ensures { AppendsKeepOutTheOthers }
{}

/// Behind a `set` only an `append` of the same extension takes effect.
#[tactic(auto, using(crate::proofs::Computed::set_keeps_out_other_extensions))]
pub fn set_keeps_out_other_extensions()
    ensures { SetKeepsOutOtherExtensions }
{}

/// A pattern fits a whole value, whatever the case of letters.
#[tactic(auto, using(crate::proofs::Computed::value_is_asked_for))]
pub fn value_is_asked_for()
    ensures { ValueIsAskedFor }
{}

/// `?` is at most one byte, and a value that is excluded fails its test.
#[tactic(auto, using(crate::proofs::Computed::excluded_value_is_none))]
pub fn excluded_value_is_none()
    ensures { ExcludedValueIsNone }
{}

/// Tests ask for response headers, also those that are excluded.
#[tactic(auto, using(crate::proofs::Computed::headers_are_carried))]
pub fn headers_are_carried()
    ensures { HeadersAreCarried }
{}

/// A redirect needs access to the URL, and to who asks for it.
#[tactic(auto, using(crate::proofs::Computed::redirect_needs_access))]
pub fn redirect_needs_access()
    ensures { RedirectNeedsAccess }
{}

/// A block needs no access.
#[tactic(auto, using(crate::proofs::Computed::block_needs_no_access))]
pub fn block_needs_no_access()
    ensures { BlockNeedsNoAccess }
{}
