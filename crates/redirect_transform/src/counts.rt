ghost use Rattle.std.specs.Prelude.{◌≡◌, List, ℕ, IfOk, count_by, length};
ghost use Rattle.std.specs.Str.{bytes_eq};
ghost use Rattle.dnr_spec.specs.Transform.{pairs_with};
ghost use Rattle.redirect_transform.specs.Counter.{count_of};

use crate::counter::Counter;
use dnr_base::{NoMemory, QueryPair, Text};
use std::alloc::Global;

/// How often each text is in the list.
///
/// `NoMemory`: no memory is left for the counts.
pub fn counted(alloc: Global, texts: &[Text]) -> Result<Counter, NoMemory>
    ensures { IfOk result (λ counter. (text : List ℕ) →
        count_of counter text ≡ count_by (λ other. bytes_eq text other) texts.now) }
{
    let mut counter = Counter::new(alloc);
    for text in texts {
        counter.add(alloc, text.as_str())?;
    }
    Ok(counter)
}

/// How many of the pairs have each key.
///
/// `NoMemory`: no memory is left for the counts.
pub fn counted_keys(alloc: Global, pairs: &[QueryPair]) -> Result<Counter, NoMemory>
    ensures { IfOk result (λ counter. (key : List ℕ) →
        count_of counter key ≡ length (pairs_with key pairs.now)) }
{
    let mut counter = Counter::new(alloc);
    for pair in pairs {
        counter.add(alloc, pair.key.as_str())?;
    }
    Ok(counter)
}
