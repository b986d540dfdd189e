ghost use Rattle.std.specs.Prelude.{◌≡◌, ◌||◌, ℕ, List, false, OnOk, string_bytes};
ghost use Rattle.std.specs.HashSet.{contains_text};
ghost use Rattle.std.specs.Str.{bytes_eq};
ghost use Rattle.suffix_list.specs.Short.{IsShort};

use dnr_spec::NoMemory;
use std::alloc::Global;
use std::collections::HashSet;

// A set of texts, in which a text that is longer than all of them costs nothing to look up.
#[derive(Drop)]
pub struct Table {
    pub texts: HashSet<String>,
    longest: usize,

    ghost short: { IsShort texts longest },
}

impl Table {
    pub fn new(alloc: Global) -> Table
        ensures { (q : List ℕ) → contains_text result.texts q ≡ false }
    {
        Table {
            texts: HashSet::new(alloc),
            longest: 0,
        }
    }

    pub fn insert(&mut self, alloc: Global, text: &str) -> Result<(), NoMemory>
        ensures { OnOk result ((q : List ℕ) → contains_text self.new.texts q
            ≡ bytes_eq text.now q || contains_text self.old.texts q) }
    {
        let text = String::from_str(alloc, text)?;
        self.longest = self.longest.max(text.len());
        put(&mut self.texts, text)
    }

    pub fn contains(&self, text: &str) -> bool
        ensures { result ≡ contains_text self.now.texts text.now }
    {
        text.len() <= self.longest && self.texts.contains(text)
    }
}

fn put(texts: &mut HashSet<String>, text: String) -> Result<(), NoMemory>
    ensures added { OnOk result ((q : List ℕ) → contains_text texts.new q
        ≡ bytes_eq (string_bytes text) q || contains_text texts.old q) }
    ensures others { (q : List ℕ) → bytes_eq (string_bytes text) q ≡ false
        → contains_text texts.new q ≡ contains_text texts.old q }
{
    texts.insert(text)?;
    Ok(())
}
