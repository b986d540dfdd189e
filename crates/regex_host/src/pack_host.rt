ghost use Rattle.std.specs.Prelude.{◌≡◌, true, Some, None, IfOk, IfSome, IsSome, IsErrOf, IsTrue, if◌then◌else◌};
ghost use Rattle.dnr_base.specs.Faults.{HasCauseOf};
ghost use Rattle.dnr_spec.specs.Patterns.{ArePlacesIn, found, pattern_in};
ghost use Rattle.regex_host.specs.Answers.{IsCalm, KeepsPlaces};
ghost use Rattle.regex_host.specs.PackHost.{IsRefusedAs};

use crate::built::Built;
use crate::groups::{BuildRefusal, count_groups};
use crate::prefilter::Prefilter;
use crate::{HostRefusal, RegexHost};
use dnr_base::{NoMemory, Span, count_fault};
use lru::LruCache;
use std::alloc::{AllocError, Global};
use std::num::NonZeroUsize;

// How many built patterns a host keeps, unless it is told.
const ROOM: usize = 16;

// Of how many patterns a host keeps what they need. It is little beside a built pattern.
const PREFILTERS: usize = 4_096;

/// A host over the crate `regex`. It keeps the patterns that were asked for last as `regex` built them, and
/// has a matcher only within a call. Of many more it keeps the literals that they need, and most texts are
/// refused by these. Its count of faults rises where `regex` refuses a pattern for its size, and nowhere else.
#[derive(Drop)]
pub struct PackHost {
    alloc: Global,
    // The built patterns by their texts: those for which the case of letters matters, and those for which it does not.
    exact: LruCache<String, Box<Built>>,
    folded: LruCache<String, Box<Built>>,
    prefilters: LruCache<String, Prefilter>,
    faults: u64,
}

impl PackHost {
    /// A host that keeps 16 built patterns of each case.
    ///
    /// # Errors
    ///
    /// `NoMemory`, where memory ran out.
    pub fn new(alloc: Global) -> Result<PackHost, NoMemory>
        ensures { IfOk result (λ host. ⟦<PackHost as RegexHost>⟧.faults host ≡ 0) }
    {
        PackHost::with_room(alloc, ROOM)
    }

    /// A host that keeps so many built patterns of each case, and at least one. What it answers does not depend on it.
    ///
    /// # Errors
    ///
    /// `NoMemory`, where memory ran out.
    pub fn with_room(alloc: Global, room: usize) -> Result<PackHost, NoMemory>
        ensures { IfOk result (λ host. ⟦<PackHost as RegexHost>⟧.faults host ≡ 0) }
    {
        let room = NonZeroUsize::new(room).unwrap_or(NonZeroUsize::MIN);
        let prefilters = NonZeroUsize::new(PREFILTERS).unwrap_or(NonZeroUsize::MIN);
        Ok(PackHost {
            alloc,
            exact: LruCache::sparse(alloc, room)?,
            folded: LruCache::sparse(alloc, room)?,
            prefilters: LruCache::sparse(alloc, prefilters)?,
            faults: 0,
        })
    }

    // Whether the pattern is kept as it was built.
    fn knows(&self, pattern: &str, fold: bool) -> bool {
        let kept = if fold {
            self.folded.peek(pattern)
        } else {
            self.exact.peek(pattern)
        };
        kept.is_some_and(|built| built.is_of(pattern, fold))
    }

    // Whether what is known of the pattern tells that it matches nowhere in the text.
    fn refuses(&self, pattern: &str, fold: bool, text: &str) -> bool
        ensures { IsTrue result → found pattern.now fold text.now ≡ None }
    {
        match self.prefilters.peek(pattern) {
            Some(filter) => filter.is_of(pattern, fold) && filter.refuses(text),
            None => false,
        }
    }

    // Keeps what the pattern needs, unless it is known. It is let go where there is no memory for it.
    fn learn(&mut self, pattern: &str, fold: bool)
        ensures { self.new.faults ≡ self.old.faults }
    {
        let known = self.prefilters.peek(pattern);
        if known.is_some_and(|filter| filter.is_of(pattern, fold)) {
            return;
        }
        let Ok(filter) = Prefilter::of(self.alloc, pattern, fold) else {
            return;
        };
        if let Ok(key) = String::from_str(self.alloc, pattern) {
            let _ = self.prefilters.put(key, filter);
        }
    }

    // Keeps a built pattern. It is let go where there is no memory for it.
    fn keep(&mut self, pattern: &str, fold: bool, built: Box<Built>)
        ensures { self.new.faults ≡ self.old.faults }
    {
        let Ok(key) = String::from_str(self.alloc, pattern) else {
            return;
        };
        let _ = if fold {
            self.folded.put(key, built)
        } else {
            self.exact.put(key, built)
        };
    }

    // The first match of a pattern by what is built of it, as `find` promises it. Most calls of `find` end before they come
    // here, so what is large stands here alone.
    fn search(
        &mut self,
        pattern: &str,
        fold: bool,
        text: &str,
        spans: &mut [Option<Span>; 10],
    ) -> Result<bool, HostRefusal>
        ensures found { IfOk result (λ is_found. found pattern.now fold text.now ≡ (if is_found then Some spans.new else None)) }
        ensures within { IfOk result (λ is_found. is_found ≡ true → ArePlacesIn text.now spans.new) }
        ensures kept { KeepsPlaces result spans.old spans.new }
        ensures pattern { IsErrOf result HostRefusal.NoPattern → ⊥ }
        ensures cause { HasCauseOf HostRefusal.HostFault self.old.faults self.new.faults result }
        ensures calm { IsCalm self.old.faults self.new.faults result }
    {
        let answer = if fold {
            search_kept(&mut self.folded, self.alloc, pattern, fold, text, spans)
        } else {
            search_kept(&mut self.exact, self.alloc, pattern, fold, text, spans)
        };
        match answer {
            Some(answer) => answer.map_err(|_| HostRefusal::NoMemory),
            None => self.search_anew(pattern, fold, text, spans),
        }
    }

    // The same of a pattern that is built for it, and kept.
    fn search_anew(
        &mut self,
        pattern: &str,
        fold: bool,
        text: &str,
        spans: &mut [Option<Span>; 10],
    ) -> Result<bool, HostRefusal>
        ensures found { IfOk result (λ is_found. found pattern.now fold text.now ≡ (if is_found then Some spans.new else None)) }
        ensures within { IfOk result (λ is_found. is_found ≡ true → ArePlacesIn text.now spans.new) }
        ensures kept { KeepsPlaces result spans.old spans.new }
        ensures pattern { IsErrOf result HostRefusal.NoPattern → ⊥ }
        ensures cause { HasCauseOf HostRefusal.HostFault self.old.faults self.new.faults result }
        ensures calm { IsCalm self.old.faults self.new.faults result }
    {
        let mut built = match built_apart(self.alloc, pattern, fold) {
            Ok(built) => built,
            Err(BuildRefusal::NoPattern) => return Ok(false),
            Err(why) => return Err(self.refusal(why)),
        };
        self.learn(pattern, fold);
        let answer = built.find(self.alloc, text, spans);
        self.keep(pattern, fold, built);
        answer.map_err(|_| HostRefusal::NoMemory)
    }

    // What the host says of a pattern that is not built. A pattern that is too big is a fault.
    fn refusal(&mut self, why: BuildRefusal) -> HostRefusal
        ensures { IsRefusedAs why result self.old.faults self.new.faults }
    {
        match why {
            BuildRefusal::NoPattern => HostRefusal::NoPattern,
            BuildRefusal::NoMemory => HostRefusal::NoMemory,
            BuildRefusal::TooBig => {
                count_fault(&mut self.faults);
                HostRefusal::HostFault
            }
        }
    }
}

// A pattern that is built, behind a box: it is large, and goes in and out of the cache.
fn built_apart(alloc: Global, pattern: &str, fold: bool) -> Result<Box<Built>, BuildRefusal>
    ensures of { IfOk result (λ built. built.value ≡ record { pattern = pattern.now; fold = fold }) }
    ensures no_pattern { IsErrOf result BuildRefusal.NoPattern → pattern_in pattern.now fold ≡ None }
    ensures too_big { IsErrOf result BuildRefusal.TooBig → IsSome (pattern_in pattern.now fold) }
{
    let built = Built::build(alloc, pattern, fold)?;
    let apart: Result<_, _> = Box::new(alloc, built);
    apart.map_err(|_| BuildRefusal::NoMemory)
}

// The first match of a pattern by what is kept of it, if it is kept. The pattern stays where it is, and no memory is taken
// for its key.
fn search_kept(
    kept: &mut LruCache<String, Box<Built>>,
    alloc: Global,
    pattern: &str,
    fold: bool,
    text: &str,
    spans: &mut [Option<Span>; 10],
) -> Option<Result<bool, AllocError>>
    ensures found { IfSome result (λ answer. IfOk answer (λ is_found. found pattern.now fold text.now ≡ (if is_found then Some spans.new else None))) }
    ensures within { IfSome result (λ answer. IfOk answer (λ is_found. is_found ≡ true → ArePlacesIn text.now spans.new)) }
    ensures kept { IfSome result (λ answer. KeepsPlaces answer spans.old spans.new) }
    ensures none { result ≡ None → spans.new ≡ spans.old }
{
    match kept.get_mut(pattern) {
        Some(built) if built.is_of(pattern, fold) => Some(built.find(alloc, text, spans)),
        _ => None,
    }
}

impl RegexHost for PackHost {
    ghost faults = { λ host. host.faults };

    // A call tells no more than its own clauses.
    ghost asks = { λ before asked now. Unit {0} };

    fn faults(&self) -> u64 {
        self.faults
    }

    fn check(&mut self, pattern: &str, fold: bool) -> Result<u32, HostRefusal> {
        let groups = match count_groups(self.alloc, pattern) {
            Ok(groups) => groups,
            Err(why) => return Err(self.refusal(why)),
        };
        if self.knows(pattern, fold) {
            return Ok(groups);
        }
        match built_apart(self.alloc, pattern, fold) {
            Ok(built) => self.keep(pattern, fold, built),
            Err(BuildRefusal::NoPattern) => {}
            Err(why) => return Err(self.refusal(why)),
        }
        Ok(groups)
    }

    fn find(
        &mut self,
        pattern: &str,
        fold: bool,
        text: &str,
        spans: &mut [Option<Span>; 10],
    ) -> Result<bool, HostRefusal> {
        if self.refuses(pattern, fold, text) {
            return Ok(false);
        }
        self.search(pattern, fold, text, spans)
    }
}
