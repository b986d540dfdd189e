// Whether a request is third party: Chrome's reference, `RuleCondition.domainType`.
// What a party is stands in `dnr_spec`, `specs/Party.antt`.
ghost use Rattle.std.specs.Prelude.{◌≡◌, Bool};
ghost use Rattle.std.specs.Option.{option_copied};
ghost use Rattle.dnr_spec.specs.Party as spec;
ghost use Rattle.dnr_spec.specs.Suffixes.{registrable};

use crate::list::SuffixList;

/// Whether a request for this host is third party, with the host of its initiator where it has one: its domain
/// is another. Hosts are one party where they are equal, or where both have a registrable domain and these are
/// equal. Without an initiator it is third party.
///
/// It takes no memory.
pub fn third_party(list: &SuffixList, host: &str, initiator: Option<&str>) -> bool
    ensures { result ≡ spec.is_third_party list.now host.now (option_copied initiator.entry) }
{
    match initiator {
        Some(initiator) => !is_same_party(list, host, initiator),
        None => true,
    }
}

fn is_same_party(list: &SuffixList, host: &str, initiator: &str) -> bool
    ensures { result ≡ spec.same_party list.now host.now initiator.now }
{
    host == initiator || is_same_domain(list.registrable(host), list.registrable(initiator))
}

fn is_same_domain(domain: Option<&str>, other: Option<&str>) -> bool
    ensures { result ≡ spec.same_domain (option_copied domain.entry) (option_copied other.entry) }
{
    match (domain, other) {
        (Some(domain), Some(other)) => domain == other,
        _ => false,
    }
}
