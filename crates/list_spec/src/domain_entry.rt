use dnr_base::Text;

/// A domain that the option `domain=` of a filter names: Adblock Plus, "How to write filters". It covers
/// itself and its subdomains.
#[derive(Debug, Drop, PartialEq, Eq)]
pub struct DomainEntry {
    /// The domain, its ASCII letters in lower case, without the `~`.
    pub domain: Text,
    /// Whether a `~` stands before it: the filter is not for this domain.
    pub excluded: bool,
}
