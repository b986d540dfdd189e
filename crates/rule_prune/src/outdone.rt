// The first rule of a list that outdoes one of them.
ghost use Rattle.std.specs.Prelude.{◌≡◌, ◌&&◌, ◌||◌, not, true, false, None, unwrap_or};
ghost use Rattle.std.specs.List.{slice_get};
ghost use Rattle.std.specs.Option.{option_copied};
ghost use Rattle.prune_spec.specs.Pruned.{IdsDiffer};
ghost use Rattle.prune_spec.specs.Shadows as needless;
ghost use Rattle.rule_prune.specs.Filters as spec;
ghost use Rattle.rule_prune.specs.Filters.{IsReady};

use crate::digests::may_be_same;
use crate::filters::{Filters, Table, expression_text, pattern_text};
use crate::shadowing::{filter_domain, shadows};
use dnr_rules::{Condition, Rule};

// Looks for the first rule that outdoes the one at a place, among those that are not gone.
#[derive(Clone, Copy)]
pub(crate) struct Search<'a> {
    pub rules: &'a [Rule],
    // of each rule, a number made of what it tests of response headers
    pub digests: &'a [Option<u32>],
    // which are gone; a place past its end is not
    pub gone: &'a [bool],
    pub place: usize,
}

// Whether the rule at a place is gone.
pub(crate) fn is_gone(gone: &[bool], place: usize) -> bool
    ensures { result ≡ unwrap_or (slice_get gone.now place) false }
{
    match gone.get(place) {
        Some(gone) => *gone,
        None => false,
    }
}

pub(crate) fn rule_at(rules: &[Rule], place: usize) -> Option<&Rule>
    ensures { option_copied result ≡ slice_get rules.now place }
{
    rules.get(place)
}

fn digest_at(digests: &[Option<u32>], place: usize) -> Option<u32>
    ensures { result ≡ unwrap_or (slice_get digests.now place) None }
{
    match digests.get(place) {
        Some(digest) => *digest,
        None => None,
    }
}

// Whether `k` makes `s` needless, and `s` does not make it so or stands behind it.
fn outdoes(k: &Rule, s: &Rule, stands_earlier: bool) -> bool
    ensures { result ≡ (needless.shadows k.now s.now && (not (needless.shadows s.now k.now) || stands_earlier)) }
{
    shadows(k, s) && (!shadows(s, k) || stands_earlier)
}

impl Search<'_> {
    // Whether the rule at another place may outdo it, by what both test of response headers.
    fn may_be_outdone_by(&self, other: usize) -> bool
        requires { IsReady self.now }
        ensures { spec.one_outdoes self.now.rules.now (slice_get self.now.rules.now other)
            (slice_get self.now.rules.now self.now.place) ≡ true → result ≡ true }
    {
        may_be_same(
            digest_at(self.digests, other),
            digest_at(self.digests, self.place),
        )
    }

    // Whether it outdoes it, by all of their fields.
    fn loses_to(&self, other: usize) -> bool
        requires { IdsDiffer self.now.rules.now }
        ensures { result ≡ spec.one_outdoes self.now.rules.now (slice_get self.now.rules.now other)
            (slice_get self.now.rules.now self.now.place) }
    {
        let Some(k) = rule_at(self.rules, other) else {
            return false;
        };
        let Some(s) = rule_at(self.rules, self.place) else {
            return false;
        };
        outdoes(k, s, other < self.place)
    }

    // Whether it outdoes it.
    fn is_outdone_by(&self, other: usize) -> bool
        requires { IsReady self.now }
        ensures { result ≡ spec.one_outdoes self.now.rules.now (slice_get self.now.rules.now other)
            (slice_get self.now.rules.now self.now.place) }
    {
        if self.may_be_outdone_by(other) {
            return self.loses_to(other);
        }
        false
    }

    fn keeps(&self, other: usize) -> bool
        requires { IsReady self.now }
        ensures { result ≡ spec.keeps self.now.rules.now self.now.gone.now self.now.place other }
    {
        !is_gone(self.gone, other) && self.is_outdone_by(other)
    }

    // The better of the best so far and of this place.
    fn nearer(&self, best: Option<usize>, other: usize) -> Option<usize>
        requires { IsReady self.now }
        ensures { result ≡ spec.nearer (spec.keeps self.now.rules.now self.now.gone.now self.now.place) best other }
    {
        if stands_before(other, best) && self.keeps(other) {
            Some(other)
        } else {
            best
        }
    }

    fn nearest(&self, so_far: Option<usize>, places: &[usize]) -> Option<usize>
        requires { IsReady self.now }
        ensures { result ≡ spec.nearest
            (spec.keeps self.now.rules.now self.now.gone.now self.now.place) so_far places.now }
    {
        let mut best = so_far;
        for other in places {
            best = self.nearer(best, *other);
        }
        best
    }

    fn under(&self, best: Option<usize>, table: &Table<'_>, text: &str) -> Option<usize>
        requires { IsReady self.now }
        ensures { result ≡ spec.nearest (spec.keeps self.now.rules.now self.now.gone.now self.now.place) best
            (spec.places_under table.now text.now) }
    {
        match table.get(text) {
            Some(places) => self.nearest(best, places.as_slice()),
            None => best,
        }
    }

    fn under_given(
        &self,
        best: Option<usize>,
        table: &Table<'_>,
        text: Option<&str>,
    ) -> Option<usize>
        requires { IsReady self.now }
        ensures { result ≡ spec.nearest (spec.keeps self.now.rules.now self.now.gone.now self.now.place) best
            (spec.under_given table.now (option_copied text.entry)) }
    {
        match text {
            Some(text) => self.under(best, table, text),
            None => best,
        }
    }

    // Among those under what stands behind each dot of the text.
    fn behind_dots(&self, so_far: Option<usize>, table: &Table<'_>, text: &str) -> Option<usize>
        requires { IsReady self.now }
        ensures { result ≡ spec.nearest (spec.keeps self.now.rules.now self.now.gone.now self.now.place) so_far
            (spec.behind_dots table.now text.now) }
    {
        let mut best = so_far;
        let mut rest = text;
        while let Some((_, behind)) = rest.split_once('.') {
            best = self.under(best, table, behind);
            rest = behind;
        }
        best
    }

    fn under_domain(
        &self,
        best: Option<usize>,
        table: &Table<'_>,
        domain: Option<&str>,
    ) -> Option<usize>
        requires { IsReady self.now }
        ensures { result ≡ spec.nearest (spec.keeps self.now.rules.now self.now.gone.now self.now.place) best
            (spec.under_domain table.now (option_copied domain.entry)) }
    {
        match domain {
            Some(domain) => self.behind_dots(self.under(best, table, domain), table, domain),
            None => best,
        }
    }

    // The first rule that outdoes it, of those that may.
    pub(crate) fn first(&self, filters: &Filters<'_>, s: &Condition) -> Option<usize>
        requires { IsReady self.now }
        ensures { result ≡ spec.nearest (spec.keeps self.now.rules.now self.now.gone.now self.now.place) None
            (spec.candidates filters.now s.now) }
    {
        let best = self.nearest(None, filters.others.as_slice());
        let best = self.under_given(best, &filters.patterns, pattern_text(s));
        let best = self.under_domain(best, &filters.domains, filter_domain(s));
        self.under_given(best, &filters.expressions, expression_text(s))
    }
}

fn stands_before(place: usize, best: Option<usize>) -> bool
    ensures { result ≡ spec.stands_before place best }
{
    match best {
        Some(best) => place < best,
        None => true,
    }
}
