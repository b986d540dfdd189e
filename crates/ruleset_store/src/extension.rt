ghost use Rattle.std.specs.Prelude.{◌≡◌, IfOk};
ghost use Rattle.std.specs.Option.{option_copied};

use crate::RuleSet;
use crate::rule_set::SharedSet;
use dnr_base::{Copied, Items, NoMemory, Text};
use match_patterns::MatchPattern;
use std::alloc::Global;
use std::marker::Model;

/// An extension, as it is installed. A clause sees the new extension of `update_spec`.
#[derive(Debug, Drop)]
pub struct Extension {
    name: Text,
    sets: Vec<SharedSet>,
    access: Option<Items<MatchPattern>>,
}

impl Model for Extension {
    ghost use Rattle.update_spec.specs.Update as spec;

    ghost Value = { spec.NewExtension };

    ghost view = { λ e. record { name = e.name; sets = e.sets.items; access = e.access } };
}

impl Extension {
    /// An extension of these parts: its name, its static rulesets in the order of its manifest, and the match patterns
    /// of what it may send elsewhere or change the headers of, `host_permissions`, if it is restricted.
    ///
    /// `NoMemory`: no memory is left to share its rulesets.
    pub fn build(
        alloc: Global,
        name: Text,
        sets: Vec<RuleSet>,
        access: Option<Items<MatchPattern>>,
    ) -> Result<Extension, NoMemory>
        ensures { IfOk result (λ extension. extension
            ≡ record { name = name; sets = sets.items; access = access }) }
    {
        let sets = shared(alloc, sets)?;
        Ok(Extension { name, sets, access })
    }

    /// Its name.
    pub fn name(&self) -> &str
        ensures { result.now ≡ self.now.name }
    {
        self.name.as_str()
    }

    /// The match patterns of what it may send elsewhere or change the headers of, if it is restricted.
    pub fn access(&self) -> Option<&Items<MatchPattern>>
        ensures { option_copied result ≡ self.now.access }
    {
        self.access.as_ref()
    }

    /// Its static rulesets, in the order of its manifest.
    pub fn sets(&self) -> &[SharedSet]
        ensures { result.now ≡ self.now.sets }
    {
        self.sets.as_slice()
    }

    /// An equal extension, which shares its rulesets.
    ///
    /// `NoMemory`: no memory is left for its other parts.
    pub fn copy(&self, alloc: Global) -> Result<Extension, NoMemory>
        ensures { IfOk result (λ copy. copy ≡ self.now) }
    {
        Ok(Extension {
            name: self.name.copy(alloc)?,
            sets: sets_again(alloc, self.sets())?,
            access: Copied::copied(&self.access, alloc)?,
        })
    }
}

impl Copied for Extension {
    fn copied(&self, alloc: Global) -> Result<Extension, NoMemory> {
        self.copy(alloc)
    }
}

// The same rulesets once more.
fn sets_again(alloc: Global, sets: &[SharedSet]) -> Result<Vec<SharedSet>, NoMemory>
    ensures { IfOk result (λ again. again.items ≡ sets.now) }
{
    let mut again = Vec::with_capacity(alloc, sets.len())?;
    for set in sets {
        again.push(set.again()?)?;
    }
    Ok(again)
}

// The rulesets, behind a handle each.
fn shared(alloc: Global, sets: Vec<RuleSet>) -> Result<Vec<SharedSet>, NoMemory>
    ensures { IfOk result (λ shared. shared.items ≡ sets.items) }
{
    let mut shared = Vec::with_capacity(alloc, sets.len())?;
    for set in sets {
        shared.push(SharedSet::new(alloc, set)?)?;
    }
    Ok(shared)
}
