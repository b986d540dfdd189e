ghost use Rattle.std.specs.Prelude.{◌≡◌, IfOk};
ghost use Rattle.rule_index.specs.Lists.{IsListIndexOf};

use crate::known_rules::KnownRules;
use crate::shared_rule::SharedRule;
use dnr_base::NoMemory;
use rule_index::ListIndex;
use std::alloc::Global;
use std::marker::Model;
use std::sync::Arc;

/// Rules in their order with the index by which they are found. Who takes them once more shares both. A clause sees the
/// rules.
#[derive(Debug, Drop)]
pub struct IndexedRules {
    rules: KnownRules<SharedRule>,
    index: Arc<ListIndex>,
}

impl Model for IndexedRules {
    ghost use Rattle.std.specs.Prelude.{List};
    ghost use Rattle.std.specs.Arc.{arc_value};
    ghost use Rattle.rule_spec.specs.Rule as spec;
    ghost use Rattle.rule_index.specs.Lists.{IsListIndexOf};

    ghost Value = { List spec.Rule };

    ghost view = { λ r. r.rules };

    ghost invariant = { λ r. IsListIndexOf r.rules (arc_value r.index) };
}

impl IndexedRules {
    // The rules of these handles.
    pub(crate) fn of_handles(
        alloc: Global,
        rules: Vec<SharedRule>,
    ) -> Result<IndexedRules, NoMemory>
        ensures { IfOk result (λ indexed. indexed ≡ rules.items) }
    {
        let rules = KnownRules::of(alloc, rules)?;
        let index = ListIndex::build(alloc, rules.as_slice())?;
        Ok(IndexedRules {
            rules,
            index: Arc::new(alloc, index)?,
        })
    }

    /// The rules.
    pub fn rules(&self) -> &KnownRules<SharedRule>
        ensures { result.now ≡ self.now }
    {
        &self.rules
    }

    /// The index of the rules, each at its place among them.
    pub fn index(&self) -> &ListIndex
        ensures { IsListIndexOf self.now result.now }
    {
        &self.index
    }

    /// The same rules once more, of which none is copied. It takes no memory.
    ///
    /// `NoMemory`: there are too many handles on them.
    pub fn again(&self) -> Result<IndexedRules, NoMemory>
        ensures { IfOk result (λ again. again ≡ self.now) }
    {
        Ok(IndexedRules {
            rules: self.rules.again()?,
            index: Arc::try_clone(&self.index)?,
        })
    }
}
