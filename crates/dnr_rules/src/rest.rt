ghost use Rattle.std.specs.Prelude.{◌≡◌, IfOk};
ghost use Rattle.std.specs.Option.{option_copied};
ghost use Rattle.dnr_rules.specs.Rest.{rest_seen};
ghost use Rattle.dnr_rules.specs.Seen.{rare_seen};

use crate::RareParts;
use dnr_base::{Copied, Items, NoMemory, Text};
use domain_set::DomainSet;
use header_tests::HeaderTest;
use std::alloc::Global;

// What few conditions give, as a condition keeps it.
#[derive(Debug, Drop)]
pub(crate) enum Rest {
    // Nothing is given. The empty list stands for each list of excluded domains, so that it can be lent.
    Absent(DomainSet),
    Given(Box<RareParts>),
}

impl Rest {
    pub(crate) fn build(rare: Option<Box<RareParts>>) -> Rest
        ensures { rest_seen result ≡ rare_seen rare }
    {
        match rare {
            Some(rare) => Rest::Given(rare),
            None => Rest::Absent(DomainSet::empty()),
        }
    }

    pub(crate) fn regex_filter(&self) -> Option<&Text>
        ensures { option_copied result ≡ (rest_seen self.now).regex_filter }
    {
        match self {
            Rest::Given(rare) => rare.regex_filter.as_ref(),
            Rest::Absent(_) => None,
        }
    }

    pub(crate) fn not_initiators(&self) -> &DomainSet
        ensures { result.now ≡ (rest_seen self.now).not_initiators }
    {
        match self {
            Rest::Given(rare) => &rare.not_initiators,
            Rest::Absent(none) => none,
        }
    }

    pub(crate) fn not_hosts(&self) -> &DomainSet
        ensures { result.now ≡ (rest_seen self.now).not_hosts }
    {
        match self {
            Rest::Given(rare) => &rare.not_hosts,
            Rest::Absent(none) => none,
        }
    }

    pub(crate) fn tabs(&self) -> Option<&Items<i32>>
        ensures { option_copied result ≡ (rest_seen self.now).tabs }
    {
        match self {
            Rest::Given(rare) => rare.tabs.as_ref(),
            Rest::Absent(_) => None,
        }
    }

    pub(crate) fn not_tabs(&self) -> &[i32]
        ensures { result.now ≡ (rest_seen self.now).not_tabs }
    {
        match self {
            Rest::Given(rare) => rare.not_tabs.as_slice(),
            Rest::Absent(_) => &[],
        }
    }

    pub(crate) fn header_tests(&self) -> Option<&Items<HeaderTest>>
        ensures { option_copied result ≡ (rest_seen self.now).header_tests }
    {
        match self {
            Rest::Given(rare) => rare.header_tests.as_ref(),
            Rest::Absent(_) => None,
        }
    }

    pub(crate) fn not_header_tests(&self) -> &[HeaderTest]
        ensures { result.now ≡ (rest_seen self.now).not_header_tests }
    {
        match self {
            Rest::Given(rare) => rare.not_header_tests.as_slice(),
            Rest::Absent(_) => &[],
        }
    }

    pub(crate) fn copy(&self, alloc: Global) -> Result<Rest, NoMemory>
        ensures { IfOk result (λ copy. rest_seen copy ≡ rest_seen self.now) }
    {
        match self {
            Rest::Given(rare) => {
                let copy = copy_rare(alloc, rare)?;
                Ok(Rest::Given(Box::new(alloc, copy)?))
            }
            Rest::Absent(none) => Ok(Rest::Absent(none.copy(alloc)?)),
        }
    }
}

fn copy_rare(alloc: Global, rare: &RareParts) -> Result<RareParts, NoMemory>
    ensures { IfOk result (λ copy. copy ≡ rare.now) }
{
    Ok(RareParts {
        regex_filter: Copied::copied(&rare.regex_filter, alloc)?,
        not_initiators: rare.not_initiators.copy(alloc)?,
        not_hosts: rare.not_hosts.copy(alloc)?,
        tabs: copy_tabs(alloc, &rare.tabs)?,
        not_tabs: copy_list(alloc, &rare.not_tabs)?,
        header_tests: Copied::copied(&rare.header_tests, alloc)?,
        not_header_tests: rare.not_header_tests.copy(alloc)?,
    })
}

fn copy_tabs(alloc: Global, tabs: &Option<Items<i32>>) -> Result<Option<Items<i32>>, NoMemory>
    ensures { IfOk result (λ copy. copy ≡ tabs.now) }
{
    match tabs {
        Some(tabs) => Ok(Some(copy_list(alloc, tabs)?)),
        None => Ok(None),
    }
}

fn copy_list(alloc: Global, tabs: &Items<i32>) -> Result<Items<i32>, NoMemory>
    ensures { IfOk result (λ copy. copy ≡ tabs.now) }
{
    Ok(Items::build(tabs.as_slice().to_vec(alloc)?))
}
