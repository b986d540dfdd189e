// Which filters stand as one: those of one plain domain each that agree in all else but the case of letters.
ghost use Rattle.std.specs.Prelude.{◌≡◌, ◌++◌, map, IfOk, OnOk, string_bytes, option_copied};
ghost use Rattle.dnr_base.specs.Kind.{has_kind};
ghost use Rattle.dnr_base.specs.KindSet.{kinds_of};
ghost use Rattle.abp_parse.specs.Seen.{filter_seen, pattern_seen};
ghost use Rattle.compile_spec.specs.Alike as spec;
ghost use Rattle.abp_compile.specs.Alike.{mark, party_mark, marks, key_texts};

use abp_parse::{FilterLine, FilterPattern};
use dnr_base::{Kind, KindSet, NoMemory};
use list_spec::DomainEntry;
use plain_domains::plain_domain;
use std::alloc::Global;
use std::collections::BTreeSet;

// The domain of a pattern that is `||`, a plain domain and `^`.
pub(crate) fn domain_of(pattern: &FilterPattern) -> Option<&str>
    ensures { option_copied result ≡ spec.plain_domain (pattern_seen pattern.now) }
{
    match pattern {
        FilterPattern::Plain(pattern) => plain_domain(pattern.text()),
        _ => None,
    }
}

// What alike filters have in common, as texts by which a table finds them again.
pub(crate) fn key_of(alloc: Global, filter: &FilterLine) -> Result<Vec<String>, NoMemory>
    ensures { IfOk result (λ key. map string_bytes key.items ≡ key_texts (filter_seen filter.now)) }
{
    let mut key = Vec::new(alloc);
    key.push(marks_of(alloc, filter)?)?;
    let entries = entry_set(alloc, filter.domains.as_slice())?;
    push_all(entries, &mut key)?;
    Ok(key)
}

// Moves the texts of a set behind those of a list, in ascending order.
pub(crate) fn push_all(mut set: BTreeSet<String>, list: &mut Vec<String>) -> Result<(), NoMemory>
    ensures { OnOk result (map string_bytes list.new.items ≡ map string_bytes list.old.items ++ map string_bytes set.keys) }
{
    while let Some(text) = set.pop_first() {
        list.push(text)?;
    }
    Ok(())
}

// What a filter says of exceptions, of the party, of pages, and of each type.
fn marks_of(alloc: Global, filter: &FilterLine) -> Result<String, NoMemory>
    ensures { IfOk result (λ text. string_bytes text ≡ marks (filter_seen filter.now)) }
{
    let mut text = String::new(alloc);
    text.push(mark(filter.exception))?;
    text.push(filter.third_party.map_or('*', mark))?;
    text.push(mark(filter.document))?;
    push_types(filter.kinds, Kind::ALL.as_slice(), &mut text)?;
    Ok(text)
}

fn mark(answer: bool) -> char
    ensures { result ≡ mark answer }
{
    if answer { '+' } else { '-' }
}

fn push_types(kinds: KindSet, these: &[Kind], text: &mut String) -> Result<(), NoMemory>
    ensures { OnOk result (string_bytes text.new ≡ string_bytes text.old ++ map (λ kind. mark (has_kind (kinds_of kinds) kind)) these.now) }
{
    for kind in these {
        text.push(mark(kinds.contains(*kind)))?;
    }
    Ok(())
}

// The entries as they stand in the option, each once, ascending by bytes.
fn entry_set(alloc: Global, entries: &[DomainEntry]) -> Result<BTreeSet<String>, NoMemory>
    ensures { IfOk result (λ set. map string_bytes set.keys ≡ spec.set_of_entries entries.now) }
{
    let mut set = BTreeSet::new(alloc);
    for entry in entries {
        set.insert(written_entry(alloc, entry)?)?;
    }
    Ok(set)
}

fn written_entry(alloc: Global, entry: &DomainEntry) -> Result<String, NoMemory>
    ensures { IfOk result (λ text. string_bytes text ≡ spec.written_entry entry.now) }
{
    let mut text = String::new(alloc);
    if entry.excluded {
        text.push('~')?;
    }
    text.push_str(entry.domain.as_str())?;
    Ok(text)
}
