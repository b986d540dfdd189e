// Where the rules stand that may make one needless: by equal patterns, by the domain of a pattern
// and its ends, by equal regular expressions, and those without a filter.
ghost use Rattle.std.specs.Prelude.{◌≡◌, ◌++◌, ◌∷◌, [], IfOk, OnOk, if◌then◌else◌};
ghost use Rattle.std.specs.Option.{option_copied};
ghost use Rattle.prune_spec.specs.Shadows as spec;
ghost use Rattle.rule_prune.specs.Filters.{Adds, AddsGiven, AreListed, Takes};

use crate::digests::digests_of;
use crate::shadowing::{filter_domain, has_no_filter};
use dnr_base::NoMemory;
use dnr_rules::{Condition, Rule};
use std::alloc::Global;
use std::collections::BTreeMap;

// Places of rules, by a text.
pub(crate) type Table<'a> = BTreeMap<&'a str, Vec<usize>>;

#[derive(Drop)]
pub(crate) struct Filters<'a> {
    // those without a filter
    pub others: Vec<usize>,
    // by the text of the urlFilter
    pub patterns: Table<'a>,
    // by the domain of a urlFilter that is one plain domain
    pub domains: Table<'a>,
    // by the text of the regexFilter
    pub expressions: Table<'a>,
    // of each rule, a number made of what it tests of response headers
    pub digests: Vec<Option<u32>>,
}

// Puts a place behind those under this text.
fn add<'a>(
    alloc: Global,
    table: &mut Table<'a>,
    text: &'a str,
    place: usize,
) -> Result<(), NoMemory>
    ensures { OnOk result (Adds table.old table.new text.now place) }
{
    let mut places = match table.remove(text) {
        Some(places) => places,
        None => Vec::new(alloc),
    };
    places.push(place)?;
    table.insert(text, places)?;
    Ok(())
}

// Puts a place behind the others, if its rule has no filter.
fn add_other(others: &mut Vec<usize>, condition: &Condition, place: usize) -> Result<(), NoMemory>
    ensures { OnOk result (others.new.items ≡ (if spec.has_no_filter condition.now then others.old.items ++ place
        ∷ [] else others.old.items)) }
{
    if has_no_filter(condition) {
        others.push(place)?;
    }
    Ok(())
}

fn add_given<'a>(
    alloc: Global,
    table: &mut Table<'a>,
    text: Option<&'a str>,
    place: usize,
) -> Result<(), NoMemory>
    ensures { OnOk result (AddsGiven table.old table.new (option_copied text.entry) place) }
{
    match text {
        Some(text) => add(alloc, table, text, place),
        None => Ok(()),
    }
}

pub(crate) fn pattern_text(condition: &Condition) -> Option<&str>
    ensures { option_copied result ≡ condition.now.url_filter }
{
    Some(condition.url_filter()?.text())
}

pub(crate) fn expression_text(condition: &Condition) -> Option<&str>
    ensures { option_copied result ≡ condition.now.regex_filter }
{
    Some(condition.regex_filter()?.as_str())
}

impl<'a> Filters<'a> {
    fn new(alloc: Global, digests: Vec<Option<u32>>) -> Filters<'a>
        ensures { result.digests.items ≡ digests.items }
    {
        Filters {
            others: Vec::new(alloc),
            patterns: BTreeMap::new(alloc),
            domains: BTreeMap::new(alloc),
            expressions: BTreeMap::new(alloc),
            digests,
        }
    }

    // Takes in the rule of this condition, which stands at this place.
    fn take(
        &mut self,
        alloc: Global,
        place: usize,
        condition: &'a Condition,
    ) -> Result<(), NoMemory>
        ensures { OnOk result (Takes self.old self.new place condition.now) }
    {
        add_other(&mut self.others, condition, place)?;
        add_given(alloc, &mut self.patterns, pattern_text(condition), place)?;
        add_given(alloc, &mut self.domains, filter_domain(condition), place)?;
        add_given(
            alloc,
            &mut self.expressions,
            expression_text(condition),
            place,
        )
    }

    // Where these rules stand.
    pub(crate) fn of(alloc: Global, rules: &'a [Rule]) -> Result<Filters<'a>, NoMemory>
        ensures { IfOk result (λ filters. AreListed filters rules.now) }
    {
        let mut filters = Filters::new(alloc, digests_of(alloc, rules)?);
        for place in 0..rules.len() {
            filters.take(alloc, place, rules[place].condition())?;
        }
        Ok(filters)
    }
}
