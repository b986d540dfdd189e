//! Examples of rules from JSON. Each is stated in `specs/Examples.antt` and computed from the definitions
//! by the prover; the functions do nothing.

ghost use Rattle.json_spec.specs.Examples.{FieldsAreRead, OldNamesStandAlone, HeadComesInOrder};
ghost use Rattle.json_spec.specs.Examples.{FieldsComeBeforeFilters, ListsComeInOrder};
ghost use Rattle.json_spec.specs.Examples.{SessionRulesNameTabs, AllowAllListsFrames};
ghost use Rattle.json_spec.specs.Examples.{RedirectsHaveForms, HeaderChangesHaveForms};
ghost use Rattle.json_spec.specs.Examples.{SecondOfAnIdIsNamed, TestsAreRead, TestsComeInOrder};

/// Domains are read in lower case, in their order and with their repeats; types count once, in the reference's order.
#[tactic(auto, using(crate::proofs::Computed::fields_are_read))]
pub fn fields_are_read()
    ensures { FieldsAreRead }
{}

/// The old name of a list is read as the new one, and not beside it.
#[tactic(auto, using(crate::proofs::Computed::old_names_stand_alone))]
pub fn old_names_stand_alone()
    ensures { OldNamesStandAlone }
{}

/// The tests of the rule come in order: object, id, priority, condition.
#[tactic(auto, using(crate::proofs::Computed::head_comes_in_order))]
pub fn head_comes_in_order()
    ensures { HeadComesInOrder }
{}

/// A field that no rule may have is refused before one of a bad form, and this one before two filters.
#[tactic(auto, using(crate::proofs::Computed::fields_come_before_filters))]
pub fn fields_come_before_filters()
    ensures { FieldsComeBeforeFilters }
{}

/// Domains at fault come before empty lists, these before both type lists, and these before tabs.
#[tactic(auto, using(crate::proofs::Computed::lists_come_in_order))]
pub fn lists_come_in_order()
    ensures { ListsComeInOrder }
{}

/// Session rules alone name tabs, each once.
#[tactic(auto, using(crate::proofs::Computed::session_rules_name_tabs))]
pub fn session_rules_name_tabs()
    ensures { SessionRulesNameTabs }
{}

/// `allowAllRequests` lists frames, and a rule that does not is refused before its tabs.
#[tactic(auto, using(crate::proofs::Computed::allow_all_lists_frames))]
pub fn allow_all_lists_frames()
    ensures { AllowAllListsFrames }
{}

/// A redirect has one field; a transform's fields have forms; a script is no target; a substitution needs a pattern.
#[tactic(auto, using(crate::proofs::Computed::redirects_have_forms))]
pub fn redirects_have_forms()
    ensures { RedirectsHaveForms }
{}

/// A rule changes some header; shapes come before operations; what may be appended to a request is listed.
#[tactic(auto, using(crate::proofs::Computed::header_changes_have_forms))]
pub fn header_changes_have_forms()
    ensures { HeaderChangesHaveForms }
{}

/// The second rule of an id is named, with its place and its id; an id that is none is not named.
#[tactic(auto, using(crate::proofs::Computed::second_of_an_id_is_named))]
pub fn second_of_an_id_is_named()
    ensures { SecondOfAnIdIsNamed }
{}

/// Tests of response headers keep their patterns in order, and their names in lower case.
#[tactic(auto, using(crate::proofs::Computed::tests_are_read))]
pub fn tests_are_read()
    ensures { TestsAreRead }
{}

/// The form of tests comes before their empty lists, and these before a name or a pattern that is none.
#[tactic(auto, using(crate::proofs::Computed::tests_come_in_order))]
pub fn tests_come_in_order()
    ensures { TestsComeInOrder }
{}
