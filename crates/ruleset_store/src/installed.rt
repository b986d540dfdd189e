ghost use Rattle.std.specs.Prelude.{◌≡◌, map, unwrap_or, IfOk};
ghost use Rattle.std.specs.Option.{option_copied};
ghost use Rattle.std.specs.Arc.{arc_value};
ghost use Rattle.ruleset_store.specs.Installed.{put_first};
ghost use Rattle.ruleset_store.specs.StaticIndex.{IsStaticIndexOf, lists_of};
ghost use Rattle.update_spec.specs.Update as spec;

use crate::installed_set::InstalledSet;
use crate::static_index::StaticIndex;
use crate::{Extension, RuleList};
use dnr_base::{Items, NoMemory, Text};
use match_patterns::MatchPattern;
use std::alloc::Global;
use std::marker::Model;
use std::sync::Arc;

/// An installed extension. Its parts are shared with the states before and after an update. A clause sees the
/// extension of `rule_spec`.
#[derive(Debug, Drop)]
pub struct InstalledExtension {
    brought: Arc<Extension>,
    sets: SetList,
    dynamic: Arc<RuleList>,
    session: Arc<RuleList>,
}

impl Model for InstalledExtension {
    ghost use Rattle.std.specs.Arc.{arc_value};
    ghost use Rattle.rule_spec.specs.State as spec;
    ghost use Rattle.ruleset_store.specs.Installed.{extension_with};

    ghost Value = { spec.Extension };

    ghost view = { λ e. extension_with (arc_value e.brought) e.sets (arc_value e.dynamic) (arc_value e.session) };
}

// The static rulesets of an extension, with one index for the rules of all. A clause sees their list.
#[derive(Debug, Drop)]
struct SetList {
    sets: Arc<Vec<InstalledSet>>,
    index: Arc<StaticIndex>,
}

impl Model for SetList {
    ghost use Rattle.std.specs.Prelude.{List};
    ghost use Rattle.std.specs.Arc.{arc_value};
    ghost use Rattle.rule_spec.specs.State as spec;
    ghost use Rattle.ruleset_store.specs.StaticIndex.{IsStaticIndexOf, lists_of};

    ghost Value = { List spec.RuleSet };

    ghost view = { λ s. (arc_value s.sets).items };

    ghost invariant = { λ s. IsStaticIndexOf (lists_of (arc_value s.sets).items) (arc_value s.index) };
}

impl SetList {
    fn new(alloc: Global, sets: Vec<InstalledSet>) -> Result<SetList, NoMemory>
        ensures { IfOk result (λ list. list ≡ sets.items) }
    {
        let index = StaticIndex::of(alloc, sets.as_slice())?;
        Ok(SetList {
            sets: Arc::new(alloc, sets)?,
            index: Arc::new(alloc, index)?,
        })
    }

    // These rulesets, whose rules are those of the list.
    fn with(&self, alloc: Global, sets: Vec<InstalledSet>) -> Result<SetList, NoMemory>
        requires { lists_of sets.items ≡ lists_of self.now }
        ensures { IfOk result (λ list. list ≡ sets.items) }
    {
        Ok(SetList {
            sets: Arc::new(alloc, sets)?,
            index: Arc::try_clone(&self.index)?,
        })
    }

    fn again(&self) -> Result<SetList, NoMemory>
        ensures { IfOk result (λ again. again ≡ self.now) }
    {
        Ok(SetList {
            sets: Arc::try_clone(&self.sets)?,
            index: Arc::try_clone(&self.index)?,
        })
    }

    fn as_slice(&self) -> &[InstalledSet]
        ensures { result.now ≡ self.now }
    {
        self.sets.as_slice()
    }

    fn index(&self) -> &StaticIndex
        ensures { IsStaticIndexOf (lists_of self.now) result.now }
    {
        &self.index
    }
}

// The rulesets of an extension that is installed.
fn installed_sets(alloc: Global, extension: &Extension) -> Result<Vec<InstalledSet>, NoMemory>
    ensures { IfOk result (λ sets. sets.items ≡ (spec.installed extension.now).sets) }
{
    let mut sets = Vec::with_capacity(alloc, extension.sets().len())?;
    for set in extension.sets() {
        sets.push(InstalledSet::of(alloc, set)?)?;
    }
    Ok(sets)
}

// The rulesets once these are disabled and these enabled.
fn switched_sets(
    alloc: Global,
    sets: &[InstalledSet],
    disable: &[Text],
    enable: &[Text],
) -> Result<Vec<InstalledSet>, NoMemory>
    ensures { IfOk result (λ next. next.items ≡ map (spec.switched disable.now enable.now) sets.now) }
{
    let mut next = Vec::with_capacity(alloc, sets.len())?;
    for set in sets {
        next.push(set.switched(disable, enable)?)?;
    }
    Ok(next)
}

// The rulesets, with this one in place of the first of its id.
#[tactic(auto, unfolding(crate::specs::Installed::put_first))]
fn with_set(
    alloc: Global,
    sets: &[InstalledSet],
    id: &str,
    set: InstalledSet,
) -> Result<Vec<InstalledSet>, NoMemory>
    ensures { IfOk result (λ next. next.items ≡ put_first (spec.has_set_id id.now) set sets.now) }
{
    let mut next = Vec::with_capacity(alloc, sets.len())?;
    let mut left = Some(set);
    for other in sets {
        let kept = if other.id() == id { left.take() } else { None };
        next.push(set_or_again(kept, other)?)?;
    }
    Ok(next)
}

// The ruleset that is given, or the other once more.
fn set_or_again(set: Option<InstalledSet>, other: &InstalledSet) -> Result<InstalledSet, NoMemory>
    ensures { IfOk result (λ one. one ≡ unwrap_or set other.now) }
{
    match set {
        Some(set) => Ok(set),
        None => other.again(),
    }
}

impl InstalledExtension {
    // The extension as it is once it is installed.
    pub(crate) fn of(
        alloc: Global,
        extension: &Arc<Extension>,
    ) -> Result<InstalledExtension, NoMemory>
        ensures { IfOk result (λ installed. installed ≡ spec.installed (arc_value extension.now)) }
    {
        let sets = installed_sets(alloc, extension)?;
        Ok(InstalledExtension {
            brought: Arc::try_clone(extension)?,
            sets: SetList::new(alloc, sets)?,
            dynamic: Arc::new(alloc, RuleList::empty(alloc))?,
            session: Arc::new(alloc, RuleList::empty(alloc))?,
        })
    }

    /// Its name.
    pub fn name(&self) -> &str
        ensures { result.now ≡ self.now.name }
    {
        self.brought.name()
    }

    /// Its static rulesets, in the order of its manifest.
    pub fn sets(&self) -> &[InstalledSet]
        ensures { result.now ≡ self.now.sets }
    {
        self.sets.as_slice()
    }

    /// The index of the rules of all its static rulesets.
    pub fn static_index(&self) -> &StaticIndex
        ensures { IsStaticIndexOf (lists_of self.now.sets) result.now }
    {
        self.sets.index()
    }

    /// The match patterns of what it may send elsewhere or change the headers of, if it is restricted.
    pub fn access(&self) -> Option<&Items<MatchPattern>>
        ensures { option_copied result ≡ self.now.access }
    {
        self.brought.access()
    }

    /// Its dynamic rules.
    pub fn dynamic(&self) -> &RuleList
        ensures { result.now ≡ self.now.dynamic }
    {
        &self.dynamic
    }

    /// Its session rules.
    pub fn session(&self) -> &RuleList
        ensures { result.now ≡ self.now.session }
    {
        &self.session
    }

    // The same extension once more. It takes no memory.
    pub(crate) fn again(&self) -> Result<InstalledExtension, NoMemory>
        ensures { IfOk result (λ again. again ≡ self.now) }
    {
        Ok(InstalledExtension {
            brought: Arc::try_clone(&self.brought)?,
            sets: self.sets.again()?,
            dynamic: Arc::try_clone(&self.dynamic)?,
            session: Arc::try_clone(&self.session)?,
        })
    }

    // The extension with these dynamic rules.
    pub(crate) fn with_dynamic(
        &self,
        alloc: Global,
        rules: RuleList,
    ) -> Result<InstalledExtension, NoMemory>
        ensures { IfOk result (λ next. next ≡ record self.now { dynamic = rules }) }
    {
        let mut next = self.again()?;
        next.dynamic = Arc::new(alloc, rules)?;
        Ok(next)
    }

    // The extension with these session rules.
    pub(crate) fn with_session(
        &self,
        alloc: Global,
        rules: RuleList,
    ) -> Result<InstalledExtension, NoMemory>
        ensures { IfOk result (λ next. next ≡ record self.now { session = rules }) }
    {
        let mut next = self.again()?;
        next.session = Arc::new(alloc, rules)?;
        Ok(next)
    }

    // The extension with these rulesets, whose rules are those that it has.
    fn with_sets(
        &self,
        alloc: Global,
        sets: Vec<InstalledSet>,
    ) -> Result<InstalledExtension, NoMemory>
        requires { lists_of sets.items ≡ lists_of self.now.sets }
        ensures { IfOk result (λ next. next ≡ record self.now { sets = sets.items }) }
    {
        let mut next = self.again()?;
        next.sets = self.sets.with(alloc, sets)?;
        Ok(next)
    }

    // The extension once these rulesets are disabled and these enabled.
    pub(crate) fn switched(
        &self,
        alloc: Global,
        disable: &[Text],
        enable: &[Text],
    ) -> Result<InstalledExtension, NoMemory>
        ensures { IfOk result (λ next. next
            ≡ record self.now { sets = map (spec.switched disable.now enable.now) self.now.sets }) }
    {
        let sets = switched_sets(alloc, self.sets(), disable, enable)?;
        self.with_sets(alloc, sets)
    }

    // The extension with this ruleset in place of the first of its id, whose rules it has.
    pub(crate) fn with_set(
        &self,
        alloc: Global,
        id: &str,
        set: InstalledSet,
    ) -> Result<InstalledExtension, NoMemory>
        requires { lists_of (put_first (spec.has_set_id id.now) set self.now.sets) ≡ lists_of self.now.sets }
        ensures { IfOk result (λ next. next
            ≡ record self.now { sets = put_first (spec.has_set_id id.now) set self.now.sets }) }
    {
        let sets = with_set(alloc, self.sets(), id, set)?;
        self.with_sets(alloc, sets)
    }
}
