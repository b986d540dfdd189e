//! How many places the indexes of segments find, before and after updates, beside how many keys are shared.
use crate::draws::{draw, draw_request, draw_rule};
use crate::plain::PlainRules;
use dnr_base::{Part, Request};
use rand_pcg::Lcg64Xsh32;
use rule_index::{ListedPart, Walk, shown_by};
use rule_segments::{Rule, RuleList, Segment, SharedRule};
use std::alloc::Global;
use std::process::Abort;
use std::test::Fail;

// How many rules there are at first. The ids of those that updates add and remove are up to about twice as high.
const RULES: u32 = 1_000;

const REQUESTS: u32 = 1_000;

const UPDATES: u32 = 50;

// How many rules an update adds.
const ADDS: u32 = 30;

// The rules in segments, and as the plain program has them.
#[derive(Drop)]
struct State {
    list: RuleList,
    plain: PlainRules,
}

impl State {
    fn empty(alloc: Global) -> State {
        State {
            list: RuleList::empty(alloc),
            plain: PlainRules::empty(alloc),
        }
    }

    // Without the rules of these ids, and with others behind those that stay.
    fn update(&mut self, alloc: Global, remove: &[u32], add: Vec<Rule>) -> Result<(), Fail> {
        for id in remove {
            self.plain.remove(*id);
        }
        for rule in &add {
            self.plain.add(alloc, rule)?;
        }
        let kept = self.list.without(alloc, remove)?;
        self.list = kept.with(alloc, &SharedRule::all_of(alloc, add)?)?;
        Ok(())
    }

    // Removes the rules of so many ids from a drawn one on, and adds some from another on, whose ids are free then.
    fn draw_update(
        &mut self,
        alloc: Global,
        removes: u32,
        generator: &mut Lcg64Xsh32,
    ) -> Result<(), Fail> {
        let mut remove = Vec::new(alloc);
        let mut add = Vec::new(alloc);
        let first = draw(generator, 2 * RULES);
        for step in 0..removes {
            remove.push(first.saturating_add(step))?;
        }
        let first = 1 + draw(generator, 2 * RULES);
        for step in 0..ADDS {
            remove.push(first + step)?;
            add.push(draw_rule(alloc, first + step, generator)?)?;
        }
        self.update(alloc, &remove, add)
    }
}

// The keys that are shared, and the places of live rules that are found.
#[derive(Clone, Copy, Debug)]
struct Counts {
    // What the plain program counts.
    pairs: usize,
    // All places.
    found: usize,
    // Without those of rules that need what the request does not show: the rules at these are tested.
    tested: usize,
    // The same by words that are listed.
    listed: usize,
}

fn is_live(segment: &Segment, place: u32) -> bool {
    segment
        .rules()
        .rules()
        .get(place as usize)
        .is_some_and(|rule| !segment.removed().has(rule.id()))
}

// How many of the places are of live rules.
fn live(segment: &Segment, places: Walk<'_>) -> usize {
    let mut count = 0usize;
    for place in places {
        if is_live(segment, place) {
            count = count.saturating_add(1);
        }
    }
    count
}

impl Counts {
    fn of_pairs(pairs: usize) -> Counts {
        Counts {
            pairs,
            found: 0,
            tested: 0,
            listed: 0,
        }
    }

    // What the index of a segment finds for a request and for its frame.
    fn found_in(segment: &Segment, own: &ListedPart<'_>, frame: &Part<'_>) -> Counts {
        let index = segment.rules().index();
        let part = own.part();
        let framing = live(segment, index.framing_candidates(frame));
        Counts {
            pairs: 0,
            found: framing.saturating_add(live(segment, index.candidates(part))),
            tested: framing.saturating_add(live(segment, index.near(part, shown_by(part)))),
            listed: framing.saturating_add(live(segment, index.near_listed(own))),
        }
    }

    fn and(self, others: Counts) -> Counts {
        Counts {
            pairs: self.pairs.saturating_add(others.pairs),
            found: self.found.saturating_add(others.found),
            tested: self.tested.saturating_add(others.tested),
            listed: self.listed.saturating_add(others.listed),
        }
    }

    // Whether many keys are shared, yet far fewer than there are rules, and some of these rules are not tested.
    fn are_telling(self) -> bool {
        20_000 <= self.pairs && self.pairs <= 100_000 && self.tested < self.pairs
    }
}

// Compares what is counted of a request.
fn compared(
    rt: &impl Abort,
    alloc: Global,
    state: &State,
    request: &Request,
) -> Result<Counts, Fail> {
    let own = ListedPart::new(alloc, request.own_part())?;
    let frame = request.frame_part(0).ok_or("no frame")?;
    let mut counts = Counts::of_pairs(state.plain.pairs(alloc, request)?);
    for segment in state.list.segments() {
        counts = counts.and(Counts::found_in(segment, &own, &frame));
    }
    assert_eq!(rt; counts.found, counts.pairs);
    assert!(rt; counts.tested <= counts.pairs);
    assert_eq!(rt; counts.listed, counts.tested);
    Ok(counts)
}

// Compares what is counted of each, and adds it.
fn all_compared(
    rt: &impl Abort,
    alloc: Global,
    state: &State,
    requests: &[Request],
) -> Result<Counts, Fail> {
    let mut counts = Counts::of_pairs(0);
    for request in requests {
        counts = counts.and(compared(rt, alloc, state, request)?);
    }
    Ok(counts)
}

// How many rules that are removed the segments still have.
fn count_removed(segments: &[Segment]) -> usize {
    let mut count = 0usize;
    for segment in segments {
        count = count.saturating_add(segment.removed().ids().len());
    }
    count
}

fn draw_requests(alloc: Global, generator: &mut Lcg64Xsh32) -> Result<Vec<Request>, Fail> {
    let mut requests = Vec::new(alloc);
    for _ in 0..REQUESTS {
        requests.push(draw_request(alloc, generator)?)?;
    }
    Ok(requests)
}

fn draw_rules(alloc: Global, generator: &mut Lcg64Xsh32) -> Result<Vec<Rule>, Fail> {
    let mut rules = Vec::new(alloc);
    for id in 1..=RULES {
        rules.push(draw_rule(alloc, id, generator)?)?;
    }
    Ok(rules)
}

// Few updates remove so many rules that segments are made anew.
fn draw_updates(alloc: Global, state: &mut State, generator: &mut Lcg64Xsh32) -> Result<(), Fail> {
    for update in 1..=UPDATES {
        let removes = if update % 10 == 0 { 500 } else { 10 };
        state.draw_update(alloc, removes, generator)?;
    }
    Ok(())
}

#[test]
fn a_rule_is_found_once_for_each_shared_key(rt: HostRuntime) -> Result<(), Fail> {
    let alloc = rt.alloc();
    let requests = draw_requests(alloc, &mut Lcg64Xsh32::new(1, 54))?;
    let mut generator = Lcg64Xsh32::new(2, 54);
    let mut state = State::empty(alloc);
    state.update(alloc, &[], draw_rules(alloc, &mut generator)?)?;
    let before = all_compared(&rt, alloc, &state, &requests)?;
    assert!(rt; before.are_telling(), "before: {before:?}");
    draw_updates(alloc, &mut state, &mut generator)?;
    let segments = state.list.segments();
    assert!(rt; 2 <= segments.len() && 0 < count_removed(segments));
    assert_eq!(rt; state.list.len(), state.plain.len());
    let after = all_compared(&rt, alloc, &state, &requests)?;
    assert!(rt; after.are_telling(), "after: {after:?}");
    Ok(())
}
