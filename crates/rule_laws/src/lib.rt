//! What is known of each rule that is read from JSON: a law over the definitions of `json_spec`.
#![tactic(auto)]

ghost use Rattle.json_spec.specs.ReadRule.{RulesKeepTheirForm};

/// A rule that is read from JSON keeps what every rule keeps.
pub fn rules_keep_their_form()
    ensures { RulesKeepTheirForm }
{}
