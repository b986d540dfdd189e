use dnr_base::Text;

/// By what a rule is found.
#[derive(Debug, Drop)]
pub enum Key {
    /// A domain that the rule is for: an entry of `requestDomains`.
    Host(Text),
    /// A word of its `urlFilter`, in lower case.
    Token(Text),
    /// A domain that it is for where that one asks: an entry of `initiatorDomains`.
    Initiator(Text),
    /// Nothing of these: the rule is tested on every request.
    All,
}
