ghost use Rattle.std.specs.Prelude.{◌≡◌, [], List, map, position, not, None, Ok, IfOk, IfErr};
ghost use Rattle.dnr_spec.specs.Domains as spec;
ghost use Rattle.dnr_spec.specs.Domains.{domains_of, covers_some, lower_case};
ghost use Rattle.domain_set.specs.Refused.{IsRefused};
ghost use Rattle.domain_set.specs.Table.{IsTable};

use crate::domain::{is_covered, is_domain};
use crate::table::{covers, order_of};
use dnr_base::{Copied, NoMemory, Text};
use dnr_spec::DomainRefusal;
use std::alloc::Global;
use std::marker::Model;

// A list of at most this many entries is walked. The walk is shorter than the look-ups, and no order is kept.
const FEW: usize = 8;

/// Domains of a rule's condition, as `RuleCondition.initiatorDomains` of Chrome's reference. A clause sees
/// the list of its entries: in lower case, in the order in which they were given, with their repeats.
#[derive(Debug, Drop)]
pub struct DomainSet {
    kept: Option<Box<Kept>>,
}

#[derive(Debug, Drop)]
struct Kept {
    entries: Vec<Text>,
    // the places of the entries in the order of their texts, where they are many
    order: Option<Box<Vec<u32>>>,
}

impl Model for DomainSet {
    ghost use Rattle.std.specs.Prelude.{List, ℕ};

    ghost Value = { List (List ℕ) };

    ghost use Rattle.domain_set.specs.Kept.{entries_of, IsKept};

    ghost view = { λ s. entries_of s.kept };

    ghost invariant = { λ s. IsKept s.kept };
}

impl DomainSet {
    /// The set that covers nothing. It takes no memory.
    pub fn empty() -> DomainSet
        ensures { result ≡ [] }
    {
        DomainSet { kept: None }
    }

    /// Reads a list of domains. Letters are read in lower case; an empty list is a set that covers nothing.
    ///
    /// # Errors
    ///
    /// - `BadDomain(place)`: the entry at this place, from 0, is the first that is no domain.
    /// - `NoMemory`: all entries are domains, and memory ran out for the set.
    pub fn read(alloc: Global, list: &[Text]) -> Result<DomainSet, DomainRefusal>
        ensures read { IfOk result (λ set. domains_of list.now ≡ Ok set) }
        ensures refused { IfErr result (IsRefused list.now) }
    {
        if let Some(place) = bad_place(list) {
            return Err(DomainRefusal::BadDomain(place));
        }
        DomainSet::of_domains(alloc, list).map_err(|_| DomainRefusal::NoMemory)
    }

    // The set of a list of domains.
    fn of_domains(alloc: Global, list: &[Text]) -> Result<DomainSet, NoMemory>
        requires { position (λ entry. not (spec.is_domain entry)) list.now ≡ None }
        ensures { IfOk result (λ set. set ≡ map lower_case list.now) }
    {
        let mut entries = Vec::with_capacity(alloc, list.len())?;
        for entry in list {
            entries.push(Text::build(entry.as_str().to_ascii_lowercase(alloc)?))?;
        }
        DomainSet::of_entries(alloc, entries)
    }

    /// The set of these entries, which are domains in lower case. It keeps the list as it is, and copies no text.
    ///
    /// # Errors
    ///
    /// `NoMemory`, where memory ran out.
    pub fn of_entries(alloc: Global, entries: Vec<Text>) -> Result<DomainSet, NoMemory>
        requires { domains_of entries.items ≡ Ok entries.items }
        ensures { IfOk result (λ set. set ≡ entries.items) }
    {
        if entries.is_empty() {
            return Ok(DomainSet::empty());
        }
        let order = order_if_many(alloc, entries.as_slice())?;
        let kept = Box::new(alloc, Kept { entries, order })?;
        Ok(DomainSet { kept: Some(kept) })
    }

    /// Whether an entry covers the host of a URL: the entry equals it, or the host is no IP address and is a
    /// subdomain of the entry. It takes no memory. In a long list it looks up the host and what follows each
    /// of its dots, and walks no list.
    pub fn covers(&self, host: &str) -> bool
        ensures { result ≡ covers_some self.now host.now }
    {
        match &self.kept {
            None => false,
            Some(kept) => match &kept.order {
                None => kept
                    .entries
                    .iter()
                    .any(|entry| is_covered(entry.as_str(), host)),
                Some(order) => covers(kept.entries.as_slice(), order.as_slice(), host),
            },
        }
    }

    /// The entries, in lower case, in the order of the list that was read, with its repeats. Read again they
    /// give the same set.
    pub fn entries(&self) -> &[Text]
        ensures value { result.now ≡ self.now }
        ensures kept { domains_of self.now ≡ Ok self.now }
    {
        match &self.kept {
            None => &[],
            Some(kept) => kept.entries.as_slice(),
        }
    }

    /// An equal set.
    ///
    /// # Errors
    ///
    /// `NoMemory`, where memory ran out.
    pub fn copy(&self, alloc: Global) -> Result<DomainSet, NoMemory>
        ensures { IfOk result (λ copy. copy ≡ self.now) }
    {
        let list = self.entries();
        let mut entries = Vec::with_capacity(alloc, list.len())?;
        for entry in list {
            entries.push(entry.copy(alloc)?)?;
        }
        DomainSet::of_entries(alloc, entries)
    }
}

// The place of the first entry that is no domain.
fn bad_place(list: &[Text]) -> Option<usize>
    ensures { result ≡ position (λ entry. not (spec.is_domain entry)) list.now }
{
    list.iter()
        .position(|entry| !is_domain(entry.as_str().as_bytes()))
}

fn order_if_many(alloc: Global, entries: &[Text]) -> Result<Option<Box<Vec<u32>>>, NoMemory>
    ensures { IfOk result (IsTable entries.now) }
{
    if entries.len() <= FEW {
        return Ok(None);
    }
    let order = order_of(alloc, entries)?;
    Ok(Some(Box::new(alloc, order)?))
}

impl Copied for DomainSet {
    fn copied(&self, alloc: Global) -> Result<DomainSet, NoMemory> {
        self.copy(alloc)
    }
}
