ghost use Rattle.std.specs.Prelude.{◌≡◌, IfOk, option_map};
ghost use Rattle.std.specs.Option.{option_copied};
ghost use Rattle.dnr_base.specs.KindSet.{kinds_of};
ghost use Rattle.dnr_base.specs.MethodSet.{methods_of};
ghost use Rattle.rule_spec.specs.IsRule.{IsGivenWhole};
ghost use Rattle.dnr_rules.specs.Given.{given};
ghost use Rattle.dnr_rules.specs.Rest.{rest_seen};

use crate::ConditionParts;
use crate::rest::Rest;
use dnr_base::{Items, KindSet, MethodSet, NoMemory, Text};
use domain_set::DomainSet;
use header_tests::HeaderTest;
use std::alloc::Global;
use std::marker::Model;
use url_filter::Pattern;

/// When a rule holds. A clause sees the condition of `rule_spec`.
#[derive(Debug, Drop)]
pub struct Condition {
    // What a test reads first stands first. A list that is given has entries, so an empty one is not given.
    kinds: KindSet,
    not_methods: MethodSet,
    methods: Option<MethodSet>,
    third_party: Option<bool>,
    case_sensitive: bool,
    url_filter: Option<Pattern>,
    hosts: DomainSet,
    initiators: DomainSet,
    rest: Rest,
}

impl Model for Condition {
    ghost use Rattle.std.specs.Prelude.{option_map};
    ghost use Rattle.dnr_base.specs.KindSet.{kinds_of};
    ghost use Rattle.dnr_base.specs.MethodSet.{methods_of};
    ghost use Rattle.rule_spec.specs.Rule as spec;
    ghost use Rattle.dnr_rules.specs.Given.{given};
    ghost use Rattle.dnr_rules.specs.Rest.{rest_seen};

    ghost Value = { spec.Condition };

    ghost view = { λ c. record {
      url_filter = c.url_filter;
      regex_filter = (rest_seen c.rest).regex_filter;
      case_sensitive = c.case_sensitive;
      initiators = given c.initiators;
      not_initiators = (rest_seen c.rest).not_initiators;
      hosts = given c.hosts;
      not_hosts = (rest_seen c.rest).not_hosts;
      third_party = c.third_party;
      kinds = kinds_of c.kinds;
      methods = option_map methods_of c.methods;
      not_methods = methods_of c.not_methods;
      tabs = (rest_seen c.rest).tabs;
      not_tabs = (rest_seen c.rest).not_tabs;
      header_tests = (rest_seen c.rest).header_tests;
      not_header_tests = (rest_seen c.rest).not_header_tests;
    } };
}

impl Condition {
    ghost use Rattle.dnr_rules.specs.Seen.{condition_seen};

    // The condition of these parts.
    pub(crate) fn build(parts: ConditionParts) -> Condition
        requires initiators { IsGivenWhole parts.initiators }
        requires hosts { IsGivenWhole parts.hosts }
        ensures { result ≡ condition_seen parts }
    {
        Condition {
            kinds: parts.kinds,
            not_methods: parts.not_methods,
            methods: parts.methods,
            third_party: parts.third_party,
            case_sensitive: parts.case_sensitive,
            url_filter: parts.url_filter,
            hosts: kept(parts.hosts),
            initiators: kept(parts.initiators),
            rest: Rest::build(parts.rare),
        }
    }

    /// What the URL must fit, without its fragment: `urlFilter`.
    pub fn url_filter(&self) -> Option<&Pattern>
        ensures { option_copied result ≡ self.now.url_filter }
    {
        self.url_filter.as_ref()
    }

    /// The pattern that must match in it: `regexFilter`.
    pub fn regex_filter(&self) -> Option<&Text>
        ensures { option_copied result ≡ self.now.regex_filter }
    {
        self.rest.regex_filter()
    }

    /// Whether the case of letters matters to the filter: `isUrlFilterCaseSensitive`.
    pub fn case_sensitive(&self) -> bool
        ensures { result ≡ self.now.case_sensitive }
    {
        self.case_sensitive
    }

    /// The domains that the request must come from: `initiatorDomains`.
    pub fn initiators(&self) -> Option<&DomainSet>
        ensures { option_copied result ≡ self.now.initiators }
    {
        given(&self.initiators)
    }

    /// The domains that it must not come from: `excludedInitiatorDomains`.
    pub fn not_initiators(&self) -> &DomainSet
        ensures { result.now ≡ self.now.not_initiators }
    {
        self.rest.not_initiators()
    }

    /// The domains that the URL's host must belong to: `requestDomains`.
    pub fn hosts(&self) -> Option<&DomainSet>
        ensures { option_copied result ≡ self.now.hosts }
    {
        given(&self.hosts)
    }

    /// The domains that it must not belong to: `excludedRequestDomains`.
    pub fn not_hosts(&self) -> &DomainSet
        ensures { result.now ≡ self.now.not_hosts }
    {
        self.rest.not_hosts()
    }

    /// Whether the request must be third party, or first party: `domainType`.
    pub fn third_party(&self) -> Option<bool>
        ensures { result ≡ self.now.third_party }
    {
        self.third_party
    }

    /// The resource types on which the rule holds: `resourceTypes`, or all but the `excludedResourceTypes`.
    pub fn kinds(&self) -> KindSet
        ensures { kinds_of result ≡ self.now.kinds }
    {
        self.kinds
    }

    /// The methods that the request must have: `requestMethods`.
    pub fn methods(&self) -> Option<MethodSet>
        ensures { option_map methods_of result ≡ self.now.methods }
    {
        self.methods
    }

    /// The methods that it must not have: `excludedRequestMethods`.
    pub fn not_methods(&self) -> MethodSet
        ensures { methods_of result ≡ self.now.not_methods }
    {
        self.not_methods
    }

    /// The tabs that it must come from: `tabIds`.
    pub fn tabs(&self) -> Option<&Items<i32>>
        ensures { option_copied result ≡ self.now.tabs }
    {
        self.rest.tabs()
    }

    /// The tabs that it must not come from: `excludedTabIds`.
    pub fn not_tabs(&self) -> &[i32]
        ensures { result.now ≡ self.now.not_tabs }
    {
        self.rest.not_tabs()
    }

    /// The tests of which the headers of the response must pass one: `responseHeaders`.
    pub fn header_tests(&self) -> Option<&Items<HeaderTest>>
        ensures { option_copied result ≡ self.now.header_tests }
    {
        self.rest.header_tests()
    }

    /// The tests of which they must pass none: `excludedResponseHeaders`.
    pub fn not_header_tests(&self) -> &[HeaderTest]
        ensures { result.now ≡ self.now.not_header_tests }
    {
        self.rest.not_header_tests()
    }

    /// An equal condition.
    ///
    /// `NoMemory`: no memory is left for its lists and texts.
    pub fn copy(&self, alloc: Global) -> Result<Condition, NoMemory>
        ensures { IfOk result (λ copy. copy ≡ self.now) }
    {
        Ok(Condition {
            kinds: self.kinds,
            not_methods: self.not_methods,
            methods: self.methods,
            third_party: self.third_party,
            case_sensitive: self.case_sensitive,
            url_filter: copy_pattern(alloc, &self.url_filter)?,
            hosts: self.hosts.copy(alloc)?,
            initiators: self.initiators.copy(alloc)?,
            rest: self.rest.copy(alloc)?,
        })
    }
}

// A list that is not given is kept as an empty one.
fn kept(domains: Option<DomainSet>) -> DomainSet
    requires { IsGivenWhole domains }
    ensures { given result ≡ domains }
{
    match domains {
        Some(domains) => domains,
        None => DomainSet::empty(),
    }
}

fn given(domains: &DomainSet) -> Option<&DomainSet>
    ensures { option_copied result ≡ given domains.now }
{
    if domains.entries().is_empty() {
        None
    } else {
        Some(domains)
    }
}

fn copy_pattern(alloc: Global, pattern: &Option<Pattern>) -> Result<Option<Pattern>, NoMemory>
    ensures { IfOk result (λ copy. copy ≡ pattern.now) }
{
    match pattern {
        Some(pattern) => Ok(Some(pattern.copy(alloc)?)),
        None => Ok(None),
    }
}
