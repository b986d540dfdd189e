// What a filter does.
ghost use Rattle.std.specs.Prelude.{◌≡◌, ◌==◌, [], ◌∷◌, length};
ghost use Rattle.dnr_base.specs.KindSet.{kinds_of};
ghost use Rattle.dnr_rules.specs.Seen.{action_seen};
ghost use Rattle.abp_parse.specs.Seen.{filter_seen};
ghost use Rattle.compile_spec.specs.Compiled as spec;
ghost use Rattle.abp_compile.specs.Seen.{effect_seen, effects_seen};

use abp_parse::FilterLine;
use dnr_base::{Kind, KindSet};
use dnr_rules::Action;

// What a rule of a filter does. An exception overrules every blocking filter, so it goes first.
#[derive(Clone, Copy)]
pub(crate) enum Effect {
    Blocks,
    Allows,
    // Exempts a page and all that it loads.
    Exempts,
}

// The effects of a filter, in the order of its rules.
#[derive(Clone, Copy)]
pub(crate) enum Effects {
    Nothing,
    One(Effect),
    Both(Effect, Effect),
}

impl Effect {
    pub(crate) fn priority(self) -> u32
        ensures { result ≡ spec.priority_of (effect_seen self) }
    {
        match self {
            Effect::Blocks => 1,
            Effect::Allows => 2,
            Effect::Exempts => 3,
        }
    }

    pub(crate) fn action(self) -> Action
        ensures { action_seen result ≡ spec.action_of (effect_seen self) }
    {
        match self {
            Effect::Blocks => Action::Block,
            Effect::Allows => Action::Allow,
            Effect::Exempts => Action::AllowAllRequests,
        }
    }

    // The types that its rules ask for.
    pub(crate) fn kinds(self, filter: &FilterLine) -> KindSet
        ensures { kinds_of result ≡ spec.kinds_for (filter_seen filter.now) (effect_seen self) }
    {
        match self {
            Effect::Blocks => filter.kinds,
            Effect::Allows => filter.kinds,
            Effect::Exempts => pages(),
        }
    }
}

// What is asked for as a page.
fn pages() -> KindSet
    ensures { kinds_of result ≡ Kind.MainFrame ∷ Kind.SubFrame ∷ [] }
{
    let mut kinds = KindSet::empty();
    kinds.insert(Kind::MainFrame);
    kinds.insert(Kind::SubFrame);
    kinds
}

fn has_no_type(kinds: KindSet) -> bool
    ensures { result ≡ (length (kinds_of kinds) == 0) }
{
    KindSet::same_types_are_one_set();
    kinds == KindSet::empty()
}

// The effects of a filter: one on its types, if it has any, and one on pages.
pub(crate) fn effects_of(filter: &FilterLine) -> Effects
    ensures { effects_seen result ≡ spec.effects_of (filter_seen filter.now) }
{
    let typed = !has_no_type(filter.kinds);
    match (filter.exception, typed, filter.document) {
        (false, true, _) => Effects::One(Effect::Blocks),
        (false, false, _) => Effects::Nothing,
        (true, true, true) => Effects::Both(Effect::Allows, Effect::Exempts),
        (true, true, false) => Effects::One(Effect::Allows),
        (true, false, true) => Effects::One(Effect::Exempts),
        (true, false, false) => Effects::Nothing,
    }
}
