// A place for a rule.
ghost use Rattle.std.specs.Prelude.{◌≡◌, Some, IfOk};
ghost use Rattle.rule_ids.specs.Counted.{counts_of};
ghost use Rattle.live_rules.specs.Slots.{listed, is_of, cleared_one, gone_one};

use dnr_base::NoMemory;
use rule_ids::Counts;
use rule_segments::SharedRule;
use std::marker::Model;

// A rule, or the place of one that is gone. A clause sees the rule, if it is there.
#[derive(Drop)]
pub(crate) struct Slot {
    rule: Option<SharedRule>,
}

impl Model for Slot {
    ghost use Rattle.std.specs.Prelude.{Option};
    ghost use Rattle.rule_spec.specs.Rule as spec;

    ghost Value = { Option spec.Rule };

    ghost view = { λ slot. slot.rule };
}

impl Slot {
    // The rule, which is shared. It takes no memory.
    pub(crate) fn of(rule: &SharedRule) -> Result<Slot, NoMemory>
        ensures { IfOk result (λ slot. slot ≡ Some rule.now) }
    {
        Ok(Slot {
            rule: Some(rule.again()?),
        })
    }

    // Empties it, if a rule of this id is there. What goes so counts for this.
    pub(crate) fn clear(&mut self, id: u32) -> Counts
        ensures slot { self.new ≡ cleared_one id self.old }
        ensures counts { result ≡ counts_of (gone_one id self.old) }
    {
        if !self.is_of(id) {
            return Counts::none();
        }
        let counts = self.counts();
        self.rule = None;
        counts
    }

    // Whether a rule of this id is there.
    fn is_of(&self, id: u32) -> bool
        ensures { result ≡ is_of id self.now }
    {
        match &self.rule {
            Some(shared) => shared.rule().id() == id,
            None => false,
        }
    }

    // What the rule counts for, if it is there.
    pub(crate) fn counts(&self) -> Counts
        ensures { result ≡ counts_of (listed self.now) }
    {
        match &self.rule {
            Some(shared) => Counts {
                rules: 1,
                patterns: shared.rule().uses_regex() as usize,
                unsafe_rules: shared.rule().is_unsafe() as usize,
            },
            None => Counts::none(),
        }
    }

    // The rule, if it is there.
    pub(crate) fn into_rule(self) -> Option<SharedRule>
        ensures { result ≡ self }
    {
        self.rule
    }
}
