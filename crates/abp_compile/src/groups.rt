// The filters of a list in groups, of which each stands as one.
ghost use Rattle.std.specs.Prelude.{◌≡◌, ◌<◌, ◌++◌, [], ◌∷◌, true, false, None, Some, is_some, map, vec_len, IfOk, OnOk, string_bytes};
ghost use Rattle.abp_parse.specs.Seen.{filter_seen};
ghost use Rattle.list_spec.specs.LineKind.{every_url};
ghost use Rattle.compile_spec.specs.Alike as spec;
ghost use Rattle.abp_compile.specs.Alike.{key_texts, has_key};
ghost use Rattle.abp_compile.specs.Groups.{told, standing_of, firsts, first_place, AreFound, HasFilters, HasJoined, Takes};
ghost use Rattle.abp_compile.specs.Seen.{standing_seen};

use crate::alike::{domain_of, key_of};
use abp_parse::{FilterLine, FilterPattern};
use dnr_base::{Items, NoMemory, Text};
use std::alloc::Global;
use std::collections::{BTreeMap, BTreeSet};

// Filters that are alike, in the order of their lines.
#[derive(Drop)]
pub(crate) struct Group {
    // the first of them
    pub filter: FilterLine,
    pub lines: Vec<u32>,
    // the plain domains of all, in the order of the lines
    pub domains: Vec<String>,
}

// The groups in the order of their first lines, and where each stands by what its filters have in common.
#[derive(Drop)]
pub(crate) struct Groups {
    pub list: Vec<Group>,
    pub places: BTreeMap<Vec<String>, usize>,
}

// Filters that stand as one: those of one rule but for its initiators and its effect.
#[derive(Drop)]
pub(crate) struct Standing {
    pub lines: Items<u32>,
    pub filter: FilterLine,
    // the hosts of the requests that they are for, if a list of hosts says so
    pub hosts: Option<Vec<Text>>,
}

impl Groups {
    pub(crate) fn new(alloc: Global) -> Groups
        ensures found { AreFound result }
        ensures filters { HasFilters result [] }
    {
        Groups {
            list: Vec::new(alloc),
            places: BTreeMap::new(alloc),
        }
    }

    // The groups, without the table by which they were found.
    pub(crate) fn into_list(self) -> Vec<Group>
        ensures { result.items ≡ self.list.items }
    {
        self.list
    }

    // Takes in the filter of a line: into the group of those that are alike, or else as a group of its own.
    pub(crate) fn add(
        &mut self,
        alloc: Global,
        line: u32,
        filter: FilterLine,
    ) -> Result<(), NoMemory>
        requires { AreFound self.old }
        ensures found { OnOk result (AreFound self.new) }
        ensures takes { OnOk result (Takes (record { line = line; filter = filter_seen filter } ∷ []) self.old self.new) }
    {
        match domain_of(&filter.pattern) {
            None => self.begin(alloc, line, filter, Vec::new(alloc))?,
            Some(domain) => {
                let domain = String::from_str(alloc, domain)?;
                self.add_plain(alloc, line, filter, domain)?;
            }
        }
        Ok(())
    }

    // Takes in the filter of a line and of this plain domain.
    fn add_plain(
        &mut self,
        alloc: Global,
        line: u32,
        filter: FilterLine,
        domain: String,
    ) -> Result<(), NoMemory>
        requires found { AreFound self.old }
        requires domain { spec.plain_domain (filter_seen filter).pattern ≡ Some (string_bytes domain) }
        ensures found { OnOk result (AreFound self.new) }
        ensures takes { OnOk result (Takes (record { line = line; filter = filter_seen filter } ∷ []) self.old self.new) }
    {
        let key = key_of(alloc, &filter)?;
        match self.find(&key) {
            Some(place) => self.join(place, line, domain)?,
            None => self.begin_at(alloc, key, line, filter, domain)?,
        }
        Ok(())
    }

    // The place of the group whose filters have this key.
    fn find(&self, key: &Vec<String>) -> Option<usize>
        requires { AreFound self.now }
        ensures { result ≡ first_place (has_key (map string_bytes key.now.items)) (firsts self.now.list.items) }
    {
        self.places.get(key).copied()
    }

    // Puts the line and the domain of a filter into the group at this place.
    fn join(&mut self, place: usize, line: u32, domain: String) -> Result<(), NoMemory>
        requires { place < vec_len self.old.list }
        ensures list { OnOk result (HasJoined place line (string_bytes domain) self.old self.new) }
        ensures places { self.new.places ≡ self.old.places }
    {
        self.list[place].join(line, domain)
    }

    // Puts a group of this filter alone behind the others, where its key finds it.
    fn begin_at(
        &mut self,
        alloc: Global,
        key: Vec<String>,
        line: u32,
        filter: FilterLine,
        domain: String,
    ) -> Result<(), NoMemory>
        requires found { AreFound self.old }
        requires plain { is_some (spec.plain_domain (filter_seen filter).pattern) ≡ true }
        requires key { map string_bytes key.items ≡ key_texts (filter_seen filter) }
        requires new { first_place (has_key (map string_bytes key.items)) (firsts self.old.list.items) ≡ None }
        ensures list { OnOk result (map told self.new.list.items ≡ map told self.old.list.items ++ record { filter = filter_seen filter; lines = line ∷ []; domains = string_bytes domain ∷ [] } ∷ []) }
        ensures found { OnOk result (AreFound self.new) }
    {
        let mut domains = Vec::with_capacity(alloc, 1)?;
        domains.push(domain)?;
        self.places.insert(key, self.list.len())?;
        self.begin(alloc, line, filter, domains)?;
        Ok(())
    }

    // Puts a group of this filter alone behind the others.
    fn begin(
        &mut self,
        alloc: Global,
        line: u32,
        filter: FilterLine,
        domains: Vec<String>,
    ) -> Result<(), NoMemory>
        ensures list { OnOk result (map told self.new.list.items ≡ map told self.old.list.items ++ record { filter = filter_seen filter; lines = line ∷ []; domains = map string_bytes domains.items } ∷ []) }
        ensures places { self.new.places ≡ self.old.places }
    {
        let mut lines = Vec::with_capacity(alloc, 1)?;
        lines.push(line)?;
        self.list.push(Group {
            filter,
            lines,
            domains,
        })?;
        Ok(())
    }
}

impl Group {
    // Takes in the line and the domain of a filter that is alike.
    fn join(&mut self, line: u32, domain: String) -> Result<(), NoMemory>
        ensures filter { self.new.filter ≡ self.old.filter }
        ensures lines { OnOk result (self.new.lines.items ≡ self.old.lines.items ++ line ∷ []) }
        ensures domains { OnOk result (self.new.domains.items ≡ self.old.domains.items ++ domain ∷ []) }
    {
        self.lines.push(line)?;
        self.domains.push(domain)?;
        Ok(())
    }

    // What stands for the group: the filter if it is alone, and else all domains in place of its pattern.
    pub(crate) fn stand(self, alloc: Global) -> Result<Standing, NoMemory>
        ensures { IfOk result (λ standing. standing_seen standing ≡ standing_of (told self)) }
    {
        let Group {
            filter,
            lines,
            domains,
        } = self;
        if lines.len() < 2 {
            return Ok(Standing {
                lines: Items::build(lines),
                filter,
                hosts: None,
            });
        }
        Ok(Standing {
            lines: Items::build(lines),
            filter: without_pattern(filter),
            hosts: Some(in_order(alloc, domains)?),
        })
    }
}

// A filter for all URLs that is the same in all else, but does not tell the case of letters.
fn without_pattern(filter: FilterLine) -> FilterLine
    ensures { filter_seen result ≡ record (filter_seen filter) { pattern = every_url; match_case = false } }
{
    FilterLine {
        exception: filter.exception,
        pattern: FilterPattern::All,
        match_case: false,
        third_party: filter.third_party,
        domains: filter.domains,
        kinds: filter.kinds,
        document: filter.document,
    }
}

// The domains in ascending order of their bytes, each once.
fn in_order(alloc: Global, domains: Vec<String>) -> Result<Vec<Text>, NoMemory>
    ensures { IfOk result (λ ordered. ordered.items ≡ spec.ascending (map string_bytes domains.items)) }
{
    let mut set = set_of(alloc, domains)?;
    let mut ordered = Vec::with_capacity(alloc, set.len())?;
    while let Some(domain) = set.pop_first() {
        ordered.push(Text::build(domain))?;
    }
    Ok(ordered)
}

fn set_of(alloc: Global, mut domains: Vec<String>) -> Result<BTreeSet<String>, NoMemory>
    ensures { IfOk result (λ set. map string_bytes set.keys ≡ spec.ascending (map string_bytes domains.items)) }
{
    domains.reverse();
    let mut set = BTreeSet::new(alloc);
    while let Some(domain) = domains.pop() {
        set.insert(domain)?;
    }
    Ok(set)
}
