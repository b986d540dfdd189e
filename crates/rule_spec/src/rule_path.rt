ghost use Rattle.std.specs.Prelude.{◌≡◌};
ghost use Rattle.rule_spec.specs.RulePath.{key_of, path_name};

/// A rule's condition or a field of it: Chrome's reference of declarativeNetRequest, `RuleCondition`.
#[derive(Clone, Copy, Debug, PartialEq, Eq)]
pub enum RulePath {
    /// The condition itself.
    Condition,
    TopDomains,
    ExcludedTopDomains,
    ResponseHeaders,
    ExcludedResponseHeaders,
    UrlFilter,
    RegexFilter,
    IsUrlFilterCaseSensitive,
    InitiatorDomains,
    ExcludedInitiatorDomains,
    Domains,
    ExcludedDomains,
    RequestDomains,
    ExcludedRequestDomains,
    DomainType,
    ResourceTypes,
    ExcludedResourceTypes,
    RequestMethods,
    ExcludedRequestMethods,
    TabIds,
    ExcludedTabIds,
    /// The values that a test of `responseHeaders` lists.
    ResponseHeaderValues,
    /// The values that a test of `excludedResponseHeaders` lists.
    ExcludedResponseHeaderValues,
}

impl RulePath {
    /// The key under which a field stands in its condition, or the keys from the condition down, with dots between
    /// them.
    pub fn key(self) -> &'static str
        ensures { result.now ≡ key_of self }
    {
        match self {
            RulePath::Condition => "condition",
            RulePath::TopDomains => "topDomains",
            RulePath::ExcludedTopDomains => "excludedTopDomains",
            RulePath::ResponseHeaders => "responseHeaders",
            RulePath::ExcludedResponseHeaders => "excludedResponseHeaders",
            RulePath::UrlFilter => "urlFilter",
            RulePath::RegexFilter => "regexFilter",
            RulePath::IsUrlFilterCaseSensitive => "isUrlFilterCaseSensitive",
            RulePath::InitiatorDomains => "initiatorDomains",
            RulePath::ExcludedInitiatorDomains => "excludedInitiatorDomains",
            RulePath::Domains => "domains",
            RulePath::ExcludedDomains => "excludedDomains",
            RulePath::RequestDomains => "requestDomains",
            RulePath::ExcludedRequestDomains => "excludedRequestDomains",
            RulePath::DomainType => "domainType",
            RulePath::ResourceTypes => "resourceTypes",
            RulePath::ExcludedResourceTypes => "excludedResourceTypes",
            RulePath::RequestMethods => "requestMethods",
            RulePath::ExcludedRequestMethods => "excludedRequestMethods",
            RulePath::TabIds => "tabIds",
            RulePath::ExcludedTabIds => "excludedTabIds",
            RulePath::ResponseHeaderValues => "responseHeaders.values",
            RulePath::ExcludedResponseHeaderValues => "excludedResponseHeaders.values",
        }
    }

    /// How a refusal writes it: the keys from the rule down, with dots between them.
    pub fn name(self) -> &'static str
        ensures { result.now ≡ path_name self }
    {
        match self {
            RulePath::Condition => "condition",
            RulePath::TopDomains => "condition.topDomains",
            RulePath::ExcludedTopDomains => "condition.excludedTopDomains",
            RulePath::ResponseHeaders => "condition.responseHeaders",
            RulePath::ExcludedResponseHeaders => "condition.excludedResponseHeaders",
            RulePath::UrlFilter => "condition.urlFilter",
            RulePath::RegexFilter => "condition.regexFilter",
            RulePath::IsUrlFilterCaseSensitive => "condition.isUrlFilterCaseSensitive",
            RulePath::InitiatorDomains => "condition.initiatorDomains",
            RulePath::ExcludedInitiatorDomains => "condition.excludedInitiatorDomains",
            RulePath::Domains => "condition.domains",
            RulePath::ExcludedDomains => "condition.excludedDomains",
            RulePath::RequestDomains => "condition.requestDomains",
            RulePath::ExcludedRequestDomains => "condition.excludedRequestDomains",
            RulePath::DomainType => "condition.domainType",
            RulePath::ResourceTypes => "condition.resourceTypes",
            RulePath::ExcludedResourceTypes => "condition.excludedResourceTypes",
            RulePath::RequestMethods => "condition.requestMethods",
            RulePath::ExcludedRequestMethods => "condition.excludedRequestMethods",
            RulePath::TabIds => "condition.tabIds",
            RulePath::ExcludedTabIds => "condition.excludedTabIds",
            RulePath::ResponseHeaderValues => "condition.responseHeaders.values",
            RulePath::ExcludedResponseHeaderValues => { "condition.excludedResponseHeaders.values" }
        }
    }
}
