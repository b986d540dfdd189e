ghost use Rattle.std.specs.Prelude.{◌≡◌};

use crate::RulePath;
use dnr_base::NoMemory;
use dnr_spec::{HeaderRefusal, PatternRefusal};
use std::alloc::{AllocError, AllocFailed};

/// Why the header changes of a rule are refused.
#[derive(Clone, Copy, Debug, PartialEq, Eq)]
pub enum HeaderCause {
    /// The rule lists none: both lists are absent or empty.
    NoHeaders,
    /// A list, an object, a name, an operation or a value has another JSON form.
    BadShape,
    /// The first change at fault is none for this reason, which is not `NoMemory`.
    Op(HeaderRefusal),
}

/// Why a rule is refused, in the order in which a rule is tested.
#[derive(Clone, Copy, Debug, PartialEq, Eq)]
pub enum RuleRefusal {
    /// It is no object. Of a list of rules: it is no list.
    NotObject,
    /// The id is no whole number from 1 to 2,147,483,647.
    BadId,
    /// An earlier rule of the list has the id.
    DuplicateId,
    /// The priority is given and no whole number from 1 to 2,147,483,647.
    BadPriority,
    /// The condition or a field of it has another form, or a name in it is not known.
    BadField(RulePath),
    /// Both filters are given.
    BothFilters,
    /// The urlFilter is none for this reason, which is not `NoMemory`.
    BadUrlFilter(PatternRefusal),
    /// The regexFilter is empty, longer than 4,096 bytes, past ASCII, or no pattern of the grammar.
    BadRegex,
    /// An entry of this list is no domain.
    BadDomain(RulePath),
    /// This list is given and has no entry.
    EmptyList(RulePath),
    /// Both lists of resource types are given.
    BothTypeLists,
    /// The action is `allowAllRequests`, and the rule gives no resource types, or others than frames.
    AllowAllTypes,
    /// A test of this list of response headers has a name that is none, or a pattern of values that is none.
    BadHeaderTest(RulePath),
    /// It names tabs, and is no session rule.
    TabsNotSession,
    /// The action is missing, no object, or of no known type.
    BadAction,
    /// The redirect has not exactly one of its four fields, or one that breaks its form.
    BadRedirect,
    /// A field of the redirect's transform breaks its form.
    BadTransform,
    /// The header changes are refused.
    BadHeader(HeaderCause),
    /// The pattern host failed at the regexFilter.
    HostFault,
    /// Memory ran out.
    NoMemory,
}

impl From<AllocError> for RuleRefusal {
    ghost use Rattle.rule_spec.specs.declared.rule_refusal.RuleRefusal.TheVariants.{NoMemory};

    ghost from_gives = { λ _ r. r ≡ NoMemory };

    fn from(_: AllocError) -> RuleRefusal {
        RuleRefusal::NoMemory
    }
}

impl<T: Drop> From<AllocFailed<T>> for RuleRefusal {
    ghost use Rattle.rule_spec.specs.declared.rule_refusal.RuleRefusal.TheVariants.{NoMemory};

    ghost from_gives = { λ _ r. r ≡ NoMemory };

    fn from(_: AllocFailed<T>) -> RuleRefusal {
        RuleRefusal::NoMemory
    }
}

impl From<NoMemory> for RuleRefusal {
    ghost use Rattle.rule_spec.specs.declared.rule_refusal.RuleRefusal.TheVariants.{NoMemory};

    ghost from_gives = { λ _ r. r ≡ NoMemory };

    fn from(_: NoMemory) -> RuleRefusal {
        RuleRefusal::NoMemory
    }
}
