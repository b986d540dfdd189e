//! Examples of the definitions. Each is stated in `specs/Examples.antt` and computed from the definitions
//! by the prover; the functions do nothing.

ghost use Rattle.load_spec.specs.Examples.{NoResourcesAreNone, ResourcesKeepTheirOrder};
ghost use Rattle.load_spec.specs.Examples.{OutermostFaultIsNamed, FieldsComeInOrder};
ghost use Rattle.load_spec.specs.Examples.{PathsStayInside, AccessComesLast};

/// A manifest without rulesets names none; keys that are not known are ignored.
#[tactic(auto, using(crate::proofs::Computed::no_resources_are_none))]
pub fn no_resources_are_none()
    ensures { NoResourcesAreNone }
{}

/// Resources stand in the order of the manifest.
#[tactic(auto, using(crate::proofs::Computed::resources_keep_their_order))]
pub fn resources_keep_their_order()
    ensures { ResourcesKeepTheirOrder }
{}

/// The outermost part at fault is named first, and null is no object.
#[tactic(auto, using(crate::proofs::Computed::outermost_fault_is_named))]
pub fn outermost_fault_is_named()
    ensures { OutermostFaultIsNamed }
{}

/// Of a resource the id comes first, then `enabled`, then the path; an id stands once.
#[tactic(auto, using(crate::proofs::Computed::fields_come_in_order))]
pub fn fields_come_in_order()
    ensures { FieldsComeInOrder }
{}

/// A path stays in the folder of its extension.
#[tactic(auto, using(crate::proofs::Computed::paths_stay_inside))]
pub fn paths_stay_inside()
    ensures { PathsStayInside }
{}

/// Match patterns are kept as they stand, and are the last to be tested.
#[tactic(auto, using(crate::proofs::Computed::access_comes_last))]
pub fn access_comes_last()
    ensures { AccessComesLast }
{}
