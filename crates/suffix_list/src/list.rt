ghost use Rattle.std.specs.Prelude.{◌≡◌, ◌<◌, length, map, Ok, IfOk, IfErr};
ghost use Rattle.std.specs.Option.{option_copied};
ghost use Rattle.dnr_spec.specs.Hosts.{labels_of};
ghost use Rattle.dnr_spec.specs.Suffixes as spec;
ghost use Rattle.suffix_list.specs.Kept as kept;
ghost use Rattle.suffix_list.specs.Reading.{IsRefused};

use crate::names::{is_domain, labels_from, without_dot};
use crate::read::read_rules;
use crate::rule::Rule;
use crate::tables::{Tables, longest_others};
use dnr_spec::{NoMemory, SuffixRefusal};
use std::alloc::Global;
use std::marker::Model;
use std::str;

/// The rules of a public suffix list (publicsuffix.org).
///
/// Threads may share it and send it to each other.
#[derive(Drop)]
pub struct SuffixList {
    // The rules in the order of the file.
    rules: Vec<Rule>,
    tables: Tables,
}

impl Model for SuffixList {
    ghost use Rattle.std.specs.Prelude.{List, map};
    ghost use Rattle.dnr_spec.specs.Suffixes.{SuffixRule};
    ghost use Rattle.suffix_list.specs.Kept.{seen, AreTablesOf};

    ghost Value = { List SuffixRule };

    ghost view = { λ l. map seen l.rules.items };

    ghost invariant = { λ l. AreTablesOf l.rules.items l.tables };
}

impl SuffixList {
    /// Reads the bytes of a list (publicsuffix.org, "Format"). No bytes are a list without rules.
    ///
    /// # Errors
    ///
    /// The first of these that holds:
    ///
    /// - `NotUtf8`: the bytes are not UTF-8.
    /// - `BadRule`: the number, from 1, of the first line whose rule has an empty label, or a label that is neither
    ///   `*` nor letters of ASCII, digits, `-` and `_` nor converted to such a label by the URL Standard's domain to
    ///   ASCII, or is an exception of one label.
    /// - `TooManyRules`: there are more than 65,536 rules.
    ///
    /// Or `NoMemory`, where memory ran out first.
    pub fn read(alloc: Global, bytes: &[u8]) -> Result<SuffixList, SuffixRefusal>
        requires { length bytes.now < 4294967295 }
        ensures read { IfOk result (λ list. spec.read_suffixes bytes.now ≡ Ok list) }
        ensures refused { IfErr result (IsRefused bytes.now) }
    {
        let Ok(text) = str::from_utf8(bytes) else {
            return Err(SuffixRefusal::NotUtf8);
        };
        let rules = read_rules(alloc, text)?;
        match SuffixList::build(alloc, rules) {
            Ok(list) => Ok(list),
            Err(NoMemory) => Err(SuffixRefusal::NoMemory),
        }
    }

    // The tables for these rules.
    fn build(alloc: Global, rules: Vec<Rule>) -> Result<SuffixList, NoMemory>
        ensures { IfOk result (λ list. list ≡ map kept.seen rules.items) }
    {
        let mut tables = Tables::new(alloc);
        for (place, rule) in rules.iter().enumerate() {
            tables.add(alloc, rule, place)?;
        }
        Ok(SuffixList { rules, tables })
    }

    /// The registrable domain of a host: its public suffix and one label more (publicsuffix.org, "Algorithm"). It
    /// is a part of the host, without a dot at its end.
    ///
    /// There is none for an IP address, a host with an empty label and a host that is a public suffix. One dot at
    /// the end of the host is not regarded. Letters are compared as they stand: the host of a URL has them in lower
    /// case.
    ///
    /// It takes no memory. It looks up each rest of the host behind a dot, and compares the host with each exception
    /// of the list and each rule with `*` behind its first label.
    pub fn registrable<'a>(&self, host: &'a str) -> Option<&'a str>
        ensures { option_copied result ≡ spec.registrable self.now host.now }
    {
        let name = without_dot(host);
        if !is_domain(name) {
            return None;
        }
        labels_from(name, self.suffix_len(name))
    }

    // How many labels the public suffix of a name has.
    fn suffix_len(&self, name: &str) -> usize
        ensures { result ≡ spec.suffix_len self.now (labels_of name.now) }
    {
        let (exception, other) = longest_others(
            self.rules.as_slice(),
            self.tables.others.as_slice(),
            name,
        );
        if exception > 0 {
            return exception - 1;
        }
        let listed = self.tables.longest_listed(name);
        other.max(listed).max(1)
    }
}
