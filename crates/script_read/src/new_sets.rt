// Rulesets that were read, with their ids.
ghost use Rattle.std.specs.Prelude.{◌≡◌, ◌++◌, [], ◌∷◌, IfOk};
ghost use Rattle.load_spec.specs.Manifest.{has_text};
ghost use Rattle.script_read.specs.Sets.{ids_of};

use dnr_base::NoMemory;
use ruleset_store::RuleSet;
use std::alloc::Global;
use std::collections::BTreeSet;
use std::marker::Model;

// A clause sees the rulesets. Their ids stand in a set, so that a long list costs one look into it for each ruleset.
#[derive(Drop)]
pub(crate) struct NewSets {
    sets: Vec<RuleSet>,
    ids: BTreeSet<String>,
}

impl Model for NewSets {
    ghost use Rattle.std.specs.Prelude.{List};
    ghost use Rattle.update_spec.specs.Update.{NewRuleSet};
    ghost use Rattle.script_read.specs.Sets.{HasIdsOf};

    ghost Value = { List NewRuleSet };

    ghost view = { λ s. s.sets.items };

    ghost invariant = { λ s. HasIdsOf s.ids s.sets.items };
}

impl NewSets {
    // No rulesets.
    #[tactic(auto, using(crate::proofs::SetIds::no_ids))]
    pub(crate) fn none(alloc: Global) -> NewSets
        ensures { result ≡ [] }
    {
        NewSets {
            sets: Vec::new(alloc),
            ids: BTreeSet::new(alloc),
        }
    }

    // Whether one of them has the id.
    pub(crate) fn has_id(&self, id: &str) -> bool
        ensures { result ≡ has_text (ids_of self.now) id.now }
    {
        self.ids.contains(id)
    }

    // The ruleset behind the others.
    pub(crate) fn with(mut self, alloc: Global, set: RuleSet) -> Result<NewSets, NoMemory>
        ensures { IfOk result (λ sets. sets ≡ self ++ set ∷ []) }
    {
        let id = String::from_str(alloc, set.id())?;
        self.ids.insert(id)?;
        self.sets.push(set)?;
        Ok(self)
    }

    // The list of them.
    pub(crate) fn into_vec(self) -> Vec<RuleSet>
        ensures { result.items ≡ self }
    {
        self.sets
    }
}
