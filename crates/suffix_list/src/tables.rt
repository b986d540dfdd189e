ghost use Rattle.std.specs.Prelude.{◌≡◌, ◌<◌, [], ◌∷◌, ◌++◌, List, length, slice_get, OnOk};
ghost use Rattle.dnr_spec.specs.Hosts.{labels_of};
ghost use Rattle.suffix_list.specs.declared.rule.Rule.{Rule};
ghost use Rattle.suffix_list.specs.Kept as kept;

use crate::names::label_count;
use crate::rule::Rule;
use crate::table::Table;
use dnr_spec::{NoMemory, split_first_label};
use std::alloc::Global;

// Where the rules of a list are found.
#[derive(Drop)]
pub struct Tables {
    // The texts of the rules without `*`, and what follows a `*` that is the first label alone. Neither has
    // exceptions.
    pub plain: Table,
    pub starred: Table,
    // The places of all other rules. There are few in a list for use: each is compared with each host.
    pub others: Vec<usize>,
}

impl Tables {
    pub fn new(alloc: Global) -> Tables
        ensures { kept.AreTablesOf [] result }
    {
        Tables {
            plain: Table::new(alloc),
            starred: Table::new(alloc),
            others: Vec::new(alloc),
        }
    }

    // Takes the rule at the next place in.
    pub fn add(&mut self, alloc: Global, rule: &Rule, place: usize) -> Result<(), NoMemory>
        ensures { OnOk result ((rules : List Rule) → place ≡ length rules
            → kept.AreTablesOf rules self.old → kept.AreTablesOf (rules ++ rule.now ∷ []) self.new) }
    {
        if rule.is_plain() {
            self.plain.insert(alloc, rule.text.as_str())?;
            return Ok(());
        }
        if let Some(rest) = rule.behind_star() {
            self.starred.insert(alloc, rest)?;
            return Ok(());
        }
        self.others.push(place)?;
        Ok(())
    }

    // How many labels the longest rule of the two tables has that matches a name, or 0.
    pub fn longest_listed(&self, name: &str) -> usize
        ensures { (rules : List Rule) → kept.AreTablesOf rules self.now
            → result ≡ kept.listed_len (labels_of name.now) rules }
    {
        let mut rest = name;
        let mut count = label_count(name);
        loop {
            let (_, behind) = split_first_label(rest);
            if self.has_rule(rest, behind) {
                return count;
            }
            let Some(others) = behind else {
                return 0;
            };
            rest = others;
            count -= 1;
        }
    }

    // Whether a rule of the tables has just these labels; `behind` stands behind the first dot of the name.
    fn has_rule(&self, name: &str, behind: Option<&str>) -> bool
        ensures { let tables = self.now in
            result ≡ kept.is_found tables.plain.texts tables.starred.texts name.now behind.entry }
    {
        match behind {
            Some(rest) => self.plain.contains(name) || self.starred.contains(rest),
            None => self.plain.contains(name),
        }
    }
}

// How many labels the longest exception and the longest rule have that match a name, or 0, of the rules at these
// places.
pub fn longest_others(rules: &[Rule], others: &[usize], name: &str) -> (usize, usize)
    requires { others.now ≡ kept.places_from kept.is_other 0 rules.now }
    ensures exceptions { result.0 ≡ kept.other_exception_len (labels_of name.now) rules.now }
    ensures rules { result.1 ≡ kept.other_rule_len (labels_of name.now) rules.now }
{
    let mut exceptions = 0;
    let mut plain = 0;
    for place in others {
        let rule = rule_at(rules, *place);
        exceptions = rule.exception_len(name).max(exceptions);
        plain = rule.rule_len(name).max(plain);
    }
    (exceptions, plain)
}

fn rule_at(rules: &[Rule], place: usize) -> &Rule
    requires { place < length rules.now }
    ensures { slice_get rules.now place ≡ Some result.now }
{
    &rules[place]
}
