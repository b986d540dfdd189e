ghost use Rattle.std.specs.Prelude.{◌≡◌, ℕ, ◌+◌, ◌<◌, ◌^◌, List, OnOk, if◌then◌else◌};
ghost use Rattle.std.specs.Str.{bytes_eq};

use dnr_base::NoMemory;
use std::alloc::Global;
use std::collections::HashMap;

/// How often each text has been counted.
#[derive(Drop)]
pub struct Counter {
    counts: HashMap<String, usize>,
}

impl Counter {
    ghost use Rattle.redirect_transform.specs.Counter.{count_of};

    /// Nothing has been counted.
    pub fn new(alloc: Global) -> Counter
        ensures { (text : List ℕ) → count_of result text ≡ 0 }
    {
        Counter {
            counts: HashMap::new(alloc),
        }
    }

    /// How often the text has been counted.
    pub fn count(&self, text: &str) -> usize
        ensures { result ≡ count_of self.now text.now }
    {
        self.counts.get(text).copied().unwrap_or(0)
    }

    /// Counts the text once more.
    ///
    /// `NoMemory`: no memory is left for the text.
    pub fn add(&mut self, alloc: Global, text: &str) -> Result<(), NoMemory>
        requires { count_of self.old text.now + 1 < 2 ^ 64 }
        ensures { OnOk result ((other : List ℕ) → count_of self.new other
            ≡ count_of self.old other + (if bytes_eq other text.now then 1 else 0)) }
    {
        let count = self.count(text) + 1;
        let key = String::from_str(alloc, text)?;
        self.counts.insert(key, count)?;
        Ok(())
    }
}
