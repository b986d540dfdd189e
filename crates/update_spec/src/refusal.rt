ghost use Rattle.std.specs.Prelude.{◌≡◌};

use dnr_base::{NoMemory, Text};
use std::alloc::{AllocError, AllocFailed};

/// Why an update is refused, in the order in which it is tested. A count is that after the update.
#[derive(Debug, Drop)]
pub enum Refusal {
    /// No extension of this name is installed.
    NoExtension(Text),
    /// An extension of this name is installed.
    ExtensionThere(Text),
    /// The extension has no static ruleset of this id.
    NoRuleset(Text),
    /// A rule of this id is there, and is not removed.
    DuplicateId(u32),
    /// The ruleset has no rule of this id.
    NoStaticRule(i128),
    /// The rule of this id is to be disabled and enabled.
    BothLists(i128),
    /// There would be more than 16 extensions.
    ExtensionLimit(usize),
    /// The extension has more than 100 rulesets.
    RulesetLimit(usize),
    /// Its rulesets have more than 330,000 rules, enabled or not.
    RulesLimit(usize),
    /// More than 50 of its rulesets would be enabled.
    EnabledLimit(usize),
    /// The enabled rules past the first 30,000 of each extension would be more than 300,000 over all extensions.
    PoolLimit(usize),
    /// It would have more than 30,000 dynamic rules.
    DynamicLimit(usize),
    /// More than 5,000 of its dynamic rules would be unsafe: redirects, or changes of headers.
    UnsafeLimit(usize),
    /// It would have more than 5,000 session rules.
    SessionLimit(usize),
    /// More than 1,000 rules of its enabled rulesets, of its dynamic or of its session rules, whichever the update
    /// changes, would have a `regexFilter`.
    RegexLimit(usize),
    /// More than 5,000 rules of its rulesets would be disabled one by one.
    DisabledLimit(usize),
    /// This many updates were accepted, and no more are.
    TooManyUpdates(usize),
    /// Memory ran out.
    NoMemory,
}

impl From<AllocError> for Refusal {
    ghost use Rattle.update_spec.specs.declared.refusal.Refusal.TheVariants.{NoMemory};

    ghost from_gives = { λ _ r. r ≡ NoMemory };

    fn from(_: AllocError) -> Refusal {
        Refusal::NoMemory
    }
}

impl<T: Drop> From<AllocFailed<T>> for Refusal {
    ghost use Rattle.update_spec.specs.declared.refusal.Refusal.TheVariants.{NoMemory};

    ghost from_gives = { λ _ r. r ≡ NoMemory };

    fn from(_: AllocFailed<T>) -> Refusal {
        Refusal::NoMemory
    }
}

impl From<NoMemory> for Refusal {
    ghost use Rattle.update_spec.specs.declared.refusal.Refusal.TheVariants.{NoMemory};

    ghost from_gives = { λ _ r. r ≡ NoMemory };

    fn from(_: NoMemory) -> Refusal {
        Refusal::NoMemory
    }
}
