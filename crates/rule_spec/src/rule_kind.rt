/// Where a rule comes from: Chrome's reference of declarativeNetRequest, "Rules" and "Rulesets".
#[derive(Clone, Copy, Debug, PartialEq, Eq)]
pub enum RuleKind {
    /// From a ruleset that an extension brings with it.
    Static,
    /// From `updateDynamicRules`.
    Dynamic,
    /// From `updateSessionRules`. These alone may name tabs.
    Session,
}
