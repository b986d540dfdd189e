// The domains of a filter's option `domain=`.
ghost use Rattle.std.specs.Prelude.{◌≡◌, ◌∷◌, OnOk, IfOk, nat_eq};
ghost use Rattle.std.specs.BTreeSet.{contains_text};
ghost use Rattle.std.specs.List.{ends_with};
ghost use Rattle.std.specs.Str.{bytes_eq};
ghost use Rattle.compile_spec.specs.Initiators as spec;
ghost use Rattle.domain_set.specs.Rests.{some_rest};
ghost use Rattle.abp_compile.specs.Domains.{with_domain, with_entry, these_in, HasTexts};

use dnr_base::{NoMemory, Text};
use dnr_spec::is_ip_host;
use list_spec::DomainEntry;
use std::alloc::Global;
use std::collections::BTreeSet;

// Domains, each once. They are looked up in a table of them, since a line may have some ten thousand.
#[derive(Drop)]
pub(crate) struct Domains {
    pub list: Vec<Text>,
    table: BTreeSet<String>,
}

impl Domains {
    // The domains of the entries that are excluded, or of those that are not, in their order.
    pub(crate) fn read(
        alloc: Global,
        entries: &[DomainEntry],
        excluded: bool,
    ) -> Result<Domains, NoMemory>
        ensures list { IfOk result (λ domains. domains.list.items ≡ these_in excluded entries.now) }
        ensures table { IfOk result (λ domains. HasTexts domains.table domains.list.items) }
    {
        let mut list = Vec::new(alloc);
        let mut table = BTreeSet::new(alloc);
        for entry in entries {
            add_entry(alloc, excluded, entry, &mut list, &mut table)?;
        }
        Ok(Domains { list, table })
    }

    // Whether the domain lies under one of these.
    pub(crate) fn are_above(&self, domain: &str) -> bool
        requires { HasTexts self.now.table self.now.list.items }
        ensures { result ≡ spec.lies_under_some self.now.list.items domain.now }
    {
        has_rest(&self.table, domain) && !is_ip_host(domain)
    }

    pub(crate) fn into_list(self) -> Vec<Text>
        ensures { result.items ≡ self.list.items }
    {
        self.list
    }
}

fn add_entry(
    alloc: Global,
    excluded: bool,
    entry: &DomainEntry,
    list: &mut Vec<Text>,
    table: &mut BTreeSet<String>,
) -> Result<(), NoMemory>
    requires { HasTexts table.old list.old.items }
    ensures list { OnOk result (list.new.items ≡ with_entry excluded list.old.items entry.now) }
    ensures table { OnOk result (HasTexts table.new list.new.items) }
{
    if entry.excluded == excluded {
        add_domain(alloc, &entry.domain, list, table)
    } else {
        Ok(())
    }
}

fn add_domain(
    alloc: Global,
    domain: &Text,
    list: &mut Vec<Text>,
    table: &mut BTreeSet<String>,
) -> Result<(), NoMemory>
    requires { HasTexts table.old list.old.items }
    ensures list { OnOk result (list.new.items ≡ with_domain list.old.items domain.now) }
    ensures table { OnOk result (HasTexts table.new list.new.items) }
{
    if table.contains(domain.as_str()) {
        return Ok(());
    }
    list.push(domain.copy(alloc)?)?;
    table.insert(String::from_str(alloc, domain.as_str())?)?;
    Ok(())
}

// Whether the table has what follows a dot of the domain: one look-up for each dot.
fn has_rest(table: &BTreeSet<String>, domain: &str) -> bool
    ensures { result ≡ some_rest (contains_text table.now) domain.now }
{
    let mut rest = domain;
    while let Some((_, behind)) = rest.split_once('.') {
        if table.contains(behind) {
            return true;
        }
        rest = behind;
    }
    false
}

// Of these domains those that lie under this one, in their order.
pub(crate) fn those_under(
    alloc: Global,
    other: &Text,
    domains: &[Text],
) -> Result<Vec<Text>, NoMemory>
    ensures { IfOk result (λ under. under.items ≡ spec.those_under other.now domains.now) }
{
    let mut under = Vec::new(alloc);
    for domain in domains {
        if lies_under(other.as_str(), domain.as_str()) {
            under.push(domain.copy(alloc)?)?;
        }
    }
    Ok(under)
}

// Whether the other domain covers this one, and is not the same.
#[tactic(auto, using(crate::proofs::Under::under))]
fn lies_under(other: &str, domain: &str) -> bool
    ensures { result ≡ spec.lies_under other.now domain.now }
{
    is_subdomain(other.as_bytes(), domain.as_bytes()) && !is_ip_host(domain)
}

// Whether the domain ends with a dot and the other.
fn is_subdomain(other: &[u8], domain: &[u8]) -> bool
    ensures { result ≡ ends_with nat_eq domain.now (46 ∷ other.now) }
{
    if domain.len() <= other.len() {
        return false;
    }
    is_dot_and(other, &domain[domain.len() - other.len() - 1..])
}

fn is_dot_and(other: &[u8], end: &[u8]) -> bool
    ensures { result ≡ bytes_eq (46 ∷ other.now) end.now }
{
    match end.split_first() {
        Some((dot, rest)) => *dot == b'.' && rest == other,
        None => false,
    }
}
