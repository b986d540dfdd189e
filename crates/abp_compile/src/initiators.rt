// For which initiators the rules of a filter are.
ghost use Rattle.std.specs.Prelude.{◌≡◌, ◌++◌, [], ◌∷◌, false, length, All, IfOk, OnOk, if◌then◌else◌};
ghost use Rattle.abp_compile.specs.Domains.{HasTexts};
ghost use Rattle.rule_spec.specs.IsRule.{AreDomains};
ghost use Rattle.compile_spec.specs.Initiators as spec;
ghost use Rattle.abp_compile.specs.Parted.{CanBeNamed};
ghost use Rattle.abp_compile.specs.Seen.{initiators_seen, in_common_of, singles_of, parted_seen};

use crate::domains::{Domains, those_under};
use dnr_base::{NoMemory, Text};
use domain_set::DomainSet;
use list_spec::DomainEntry;
use std::alloc::Global;

// The initiators of one rule: those of its list, or all where it has none, but for those that it excludes.
#[derive(Drop)]
pub(crate) struct Initiators {
    pub among: Option<DomainSet>,
    pub not_among: DomainSet,
}

// The domains of a filter, by which its rules differ.
#[derive(Drop)]
pub(crate) struct Parted {
    // listed domains under no excluded one
    pub others: Vec<Text>,
    // listed domains under an excluded one, of which each has a rule of its own
    pub nested: Vec<Text>,
    pub excluded: Vec<Text>,
}

impl Parted {
    // Parts the domains of these entries.
    pub(crate) fn read(alloc: Global, entries: &[DomainEntry]) -> Result<Parted, NoMemory>
        ensures { IfOk result (λ parted. parted_seen parted ≡ spec.initiators_of entries.now) }
    {
        let excluded = Domains::read(alloc, entries, true)?;
        let listed = Domains::read(alloc, entries, false)?;
        let mut others = Vec::new(alloc);
        let mut nested = Vec::new(alloc);
        for domain in listed.list.as_slice() {
            put(alloc, &excluded, domain, &mut others, &mut nested)?;
        }
        let excluded = excluded.into_list();
        Ok(Parted {
            others,
            nested,
            excluded,
        })
    }

    // Whether there is a rule besides those of single domains.
    pub(crate) fn has_common(&self) -> bool
        ensures { (if result then 1 else 0) ≡ length (in_common_of self.now) }
    {
        self.nested.is_empty() || !self.others.is_empty()
    }

    // How many rules there are besides those of single domains.
    pub(crate) fn common_count(&self) -> u32
        ensures { result ≡ length (in_common_of self.now) }
    {
        u32::from(self.has_common())
    }

    // Whether there are rules of single domains.
    pub(crate) fn has_singles(&self) -> bool
        ensures { result ≡ false → singles_of self.now ≡ [] }
    {
        !self.nested.is_empty()
    }

    // How many rules they give for each effect.
    pub(crate) fn count(&self) -> usize
        ensures { result ≡ length (parted_seen self.now) }
    {
        self.nested.len() + usize::from(self.has_common())
    }

    // The initiators of the rule besides those of single domains.
    pub(crate) fn common(&self, alloc: Global) -> Result<Initiators, NoMemory>
        requires one { length (in_common_of self.now) ≡ 1 }
        requires named { All CanBeNamed (in_common_of self.now) }
        ensures { IfOk result (λ initiators. in_common_of self.now ≡ initiators_seen initiators ∷ []) }
    {
        let among = set_if_any(alloc, self.others.as_slice())?;
        let not_among = set_of(alloc, self.excluded.as_slice())?;
        Ok(Initiators { among, not_among })
    }

    // Those of the rule of a single domain, which excludes the excluded domains under it.
    pub(crate) fn single(&self, alloc: Global, domain: &Text) -> Result<Initiators, NoMemory>
        requires { CanBeNamed (spec.single self.now.excluded.items domain.now) }
        ensures { IfOk result (λ initiators. initiators_seen initiators ≡ spec.single self.now.excluded.items domain.now) }
    {
        let under = those_under(alloc, domain, self.excluded.as_slice())?;
        let among = Some(set_of(alloc, std::slice::from_ref(domain))?);
        let not_among = set_of(alloc, under.as_slice())?;
        Ok(Initiators { among, not_among })
    }
}

// Puts a listed domain among those that it belongs to.
fn put(
    alloc: Global,
    excluded: &Domains,
    domain: &Text,
    others: &mut Vec<Text>,
    nested: &mut Vec<Text>,
) -> Result<(), NoMemory>
    requires { HasTexts excluded.now.table excluded.now.list.items }
    ensures others { OnOk result (others.new.items ≡ others.old.items ++ spec.not_nested excluded.now.list.items (domain.now ∷ [])) }
    ensures nested { OnOk result (nested.new.items ≡ nested.old.items ++ spec.nested excluded.now.list.items (domain.now ∷ [])) }
{
    let copy = domain.copy(alloc)?;
    if excluded.are_above(domain.as_str()) {
        nested.push(copy)?;
    } else {
        others.push(copy)?;
    }
    Ok(())
}

// A list of domains, or none where nothing is listed.
fn set_if_any(alloc: Global, domains: &[Text]) -> Result<Option<DomainSet>, NoMemory>
    requires { AreDomains domains.now }
    ensures { IfOk result (λ set. set ≡ spec.list_if_any domains.now) }
{
    if domains.is_empty() {
        return Ok(None);
    }
    Ok(Some(set_of(alloc, domains)?))
}

pub(crate) fn set_of(alloc: Global, domains: &[Text]) -> Result<DomainSet, NoMemory>
    requires { AreDomains domains.now }
    ensures { IfOk result (λ set. set ≡ domains.now) }
{
    match DomainSet::read(alloc, domains) {
        Ok(set) => Ok(set),
        // They are domains, so it is memory that is short.
        Err(_) => Err(NoMemory),
    }
}
