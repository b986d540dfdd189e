//! Whether a line is for a page.
ghost use Rattle.std.specs.Prelude.{◌≡◌};
ghost use Rattle.list_spec.specs.Entries as named;
ghost use Rattle.list_spec.specs.Says as says;
ghost use Rattle.hide_rules.specs.Ends.{applies_by};
ghost use Rattle.hide_rules.specs.Texts.{texts_of};

use list_spec::DomainEntry;

fn is_listed(entries: &[DomainEntry], domain: &str) -> bool
    ensures { result ≡ named.is_listed entries.now domain.now }
{
    entries
        .iter()
        .any(|entry| !entry.excluded && entry.domain.as_str() == domain)
}

fn is_excluded(entries: &[DomainEntry], domain: &str) -> bool
    ensures { result ≡ named.is_excluded entries.now domain.now }
{
    entries
        .iter()
        .any(|entry| entry.excluded && entry.domain.as_str() == domain)
}

/// Whether no entry lists a domain: each excludes one.
pub fn lists_none(entries: &[DomainEntry]) -> bool
    ensures { result ≡ says.lists_none entries.now }
{
    entries.iter().all(|entry| entry.excluded)
}

/// Whether a line with these entries is for pages that these domains cover, the longest first.
pub fn applies(entries: &[DomainEntry], domains: &[&str]) -> bool
    ensures { result ≡ applies_by (texts_of domains.now) entries.now }
{
    for domain in domains {
        if is_listed(entries, domain) {
            return true;
        }
        if is_excluded(entries, domain) {
            return false;
        }
    }
    lists_none(entries)
}
