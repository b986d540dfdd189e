/// Where a rule stands among those of its extension: session rules, then dynamic ones, then those of the
/// static rulesets.
#[derive(Clone, Copy, Debug, PartialEq, Eq)]
pub enum Rank {
    /// A session rule.
    Session,
    /// A dynamic rule.
    Dynamic,
    /// A rule of the static ruleset at this place of the manifest, from 0.
    Static(u32),
}
