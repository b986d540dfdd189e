ghost use Rattle.std.specs.Prelude.{◌≡◌, false, IfOk};
ghost use Rattle.dnr_base.specs.KindSet.{kinds_of};
ghost use Rattle.dnr_rules.specs.Seen.{condition_seen, rare_seen};
ghost use Rattle.rule_spec.specs.Rule.{plain_condition};
ghost use Rattle.dnr_rules.specs.Plain.{no_rare};

use crate::Action;
use dnr_base::{Items, KindSet, MethodSet, NoMemory, Text};
use domain_set::DomainSet;
use header_tests::HeaderTest;
use std::alloc::Global;
use url_filter::Pattern;

/// What a rule is made of.
#[derive(Debug, Drop)]
pub struct RuleParts {
    /// From 1 to 2,147,483,647.
    pub id: u32,
    /// From 1 to 2,147,483,647. Of the rules that hold, the greater priority comes first.
    pub priority: u32,
    /// When it holds.
    pub condition: ConditionParts,
    /// What it does then.
    pub action: Action,
}

/// What a condition is made of: Chrome's reference of declarativeNetRequest, `RuleCondition`. A list that is
/// `None` is not given. One whose name begins with `not_` is not given where it is empty.
#[derive(Debug, Drop)]
pub struct ConditionParts {
    /// What the URL must fit.
    pub url_filter: Option<Pattern>,
    /// Whether the case of letters matters to the filter.
    pub case_sensitive: bool,
    /// The domains that the request must come from.
    pub initiators: Option<DomainSet>,
    /// The domains that the URL's host must belong to.
    pub hosts: Option<DomainSet>,
    /// Whether the request must be third party, or first party.
    pub third_party: Option<bool>,
    /// The resource types on which the rule holds.
    pub kinds: KindSet,
    /// The methods that the request must have.
    pub methods: Option<MethodSet>,
    /// The methods that it must not have.
    pub not_methods: MethodSet,
    /// What few conditions give. `None`: nothing of it is given.
    pub rare: Option<Box<RareParts>>,
}

/// What few conditions give. It stands behind a box, so that the other rules are small.
#[derive(Debug, Drop)]
pub struct RareParts {
    /// The pattern that must match in the URL.
    pub regex_filter: Option<Text>,
    /// The domains that the request must not come from.
    pub not_initiators: DomainSet,
    /// The domains that the URL's host must not belong to.
    pub not_hosts: DomainSet,
    /// The tabs that the request must come from; -1 is no tab.
    pub tabs: Option<Items<i32>>,
    /// The tabs that it must not come from.
    pub not_tabs: Items<i32>,
    /// The tests of which the response's headers must pass one.
    pub header_tests: Option<Items<HeaderTest>>,
    /// The tests of which they must pass none.
    pub not_header_tests: Items<HeaderTest>,
}

impl ConditionParts {
    /// A condition that gives these types and nothing else. It takes no memory.
    pub fn of_kinds(kinds: KindSet) -> ConditionParts
        ensures { condition_seen result ≡ plain_condition (kinds_of kinds) }
    {
        ConditionParts {
            url_filter: None,
            case_sensitive: false,
            initiators: None,
            hosts: None,
            third_party: None,
            kinds,
            methods: None,
            not_methods: MethodSet::empty(),
            rare: None,
        }
    }
}

impl RareParts {
    /// Nothing is given. It takes no memory.
    pub fn none(alloc: Global) -> RareParts
        ensures { result ≡ no_rare }
    {
        RareParts {
            regex_filter: None,
            not_initiators: DomainSet::empty(),
            not_hosts: DomainSet::empty(),
            tabs: None,
            not_tabs: Items::build(Vec::new(alloc)),
            header_tests: None,
            not_header_tests: Items::build(Vec::new(alloc)),
        }
    }

    // Whether something is given.
    fn is_given(&self) -> bool
        ensures { (result ≡ false) → self.now ≡ no_rare }
    {
        self.regex_filter.is_some()
            || self.tabs.is_some()
            || !self.not_tabs.as_slice().is_empty()
            || !self.not_initiators.entries().is_empty()
            || !self.not_hosts.entries().is_empty()
            || self.header_tests.is_some()
            || !self.not_header_tests.as_slice().is_empty()
    }

    /// The same behind a box, which is made where something is given.
    ///
    /// `NoMemory`: no memory is left for the box.
    pub fn boxed(self, alloc: Global) -> Result<Option<Box<RareParts>>, NoMemory>
        ensures { IfOk result (λ rare. rare_seen rare ≡ self) }
    {
        if !self.is_given() {
            return Ok(None);
        }
        Ok(Some(Box::new(alloc, self)?))
    }
}
