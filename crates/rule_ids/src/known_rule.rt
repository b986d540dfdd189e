ghost use Rattle.std.specs.Prelude.{◌≡◌, ◌<◌, ◌^◌};
ghost use Rattle.rule_ids.specs.Counted.{known_of};

use dnr_rules::Rule;

/// What is known of a rule by its id: what it counts for.
#[derive(Clone, Copy, Debug)]
pub struct KnownRule {
    /// Its id.
    pub id: u32,
    /// Whether it has a `regexFilter`.
    pub uses_regex: bool,
    /// Whether it is unsafe.
    pub is_unsafe: bool,
}

impl KnownRule {
    // What is known of the rule.
    pub(crate) fn of(rule: &Rule) -> KnownRule
        ensures same { result ≡ known_of rule.now }
        ensures small { result.id < 2 ^ 32 }
    {
        KnownRule {
            id: rule.id(),
            uses_regex: rule.uses_regex(),
            is_unsafe: rule.is_unsafe(),
        }
    }
}
