// The rules of filters.
ghost use Rattle.std.specs.Prelude.{◌≡◌, ◌+◌, ◌<◌, ◌≤◌, ◌++◌, [], ◌∷◌, length, vec_len, IfOk, OnOk};
ghost use Rattle.compile_spec.specs.Compiled as spec;
ghost use Rattle.compile_spec.specs.Initiators.{single};
ghost use Rattle.abp_compile.specs.Seen.{effect_seen, in_common_of, singles_of, parted_seen, standing_seen, initiators_seen};
ghost use Rattle.abp_compile.specs.Work.{drafts, IsGiven, GiveRules, GivesAllRules, HasDrafts, Gains, Keeps};

use crate::effects::{Effect, Effects, effects_of};
use crate::groups::Standing;
use crate::initiators::{Initiators, Parted};
use crate::rule::{hosts_of, into_hosts, rule_of};
use dnr_base::{Items, NoMemory, Text};
use dnr_rules::Rule;
use std::alloc::Global;

/// The most rules of a list.
pub(crate) const MAX_RULES: usize = 300_000;

// What was made of the filters so far. Past the limit rules are counted, and no more are kept.
#[derive(Drop)]
pub(crate) struct Work {
    pub count: usize,
    pub rules: Vec<Rule>,
    pub origins: Vec<Items<u32>>,
}

impl Work {
    // Nothing.
    pub(crate) fn new(alloc: Global) -> Work
        ensures { HasDrafts result [] }
    {
        Work {
            count: 0,
            rules: Vec::new(alloc),
            origins: Vec::new(alloc),
        }
    }

    // Adds the rules of filters that stand as one: all of their first effect before those of their second.
    pub(crate) fn add(&mut self, alloc: Global, standing: Standing) -> Result<(), NoMemory>
        requires { GivesAllRules (standing_seen standing) }
        ensures { OnOk result (Gains (spec.drafts_of (standing_seen standing)) self.old self.new) }
    {
        let domains = Parted::read(alloc, standing.filter.domains.as_slice())?;
        match effects_of(&standing.filter) {
            Effects::Nothing => Ok(()),
            Effects::One(effect) => self.add_last(alloc, standing, effect, &domains),
            Effects::Both(first, second) => {
                self.add_effect(alloc, &standing, first, &domains)?;
                self.add_last(alloc, standing, second, &domains)
            }
        }
    }

    // Adds the rules of the last effect of filters.
    fn add_last(
        &mut self,
        alloc: Global,
        standing: Standing,
        effect: Effect,
        domains: &Parted,
    ) -> Result<(), NoMemory>
        requires { GiveRules (standing_seen standing) (effect_seen effect) (parted_seen domains.now) }
        ensures { OnOk result (Gains (drafts (standing_seen standing) (effect_seen effect) (parted_seen domains.now)) self.old self.new) }
    {
        if domains.has_singles() {
            self.add_effect(alloc, &standing, effect, domains)
        } else {
            self.add_alone(alloc, standing, effect, domains)
        }
    }

    // Adds the one rule of an effect of filters. It takes over their lines and hosts.
    fn add_alone(
        &mut self,
        alloc: Global,
        standing: Standing,
        effect: Effect,
        domains: &Parted,
    ) -> Result<(), NoMemory>
        requires alone { singles_of domains.now ≡ [] }
        requires rules { GiveRules (standing_seen standing) (effect_seen effect) (parted_seen domains.now) }
        ensures { OnOk result (Gains (drafts (standing_seen standing) (effect_seen effect) (parted_seen domains.now)) self.old self.new) }
    {
        let before = self.count;
        // No memory holds a list of so many rules.
        let Some(count) = before.checked_add(domains.count()) else {
            return Err(NoMemory);
        };
        self.count = count;
        if count > MAX_RULES {
            return Ok(());
        }
        let initiators = domains.common(alloc)?;
        self.keep_last(alloc, before as u32 + 1, standing, effect, initiators)?;
        Ok(())
    }

    // Adds the rules of one effect of filters, whose domains these are.
    fn add_effect(
        &mut self,
        alloc: Global,
        standing: &Standing,
        effect: Effect,
        domains: &Parted,
    ) -> Result<(), NoMemory>
        requires { GiveRules (standing_seen standing.now) (effect_seen effect) (parted_seen domains.now) }
        ensures { OnOk result (Gains (drafts (standing_seen standing.now) (effect_seen effect) (parted_seen domains.now)) self.old self.new) }
    {
        let before = self.count;
        // No memory holds a list of so many rules.
        let Some(count) = before.checked_add(domains.count()) else {
            return Err(NoMemory);
        };
        self.count = count;
        if count > MAX_RULES {
            return Ok(());
        }
        let first = before as u32 + 1;
        self.keep_common(alloc, first, standing, effect, domains)?;
        let next = first + domains.common_count();
        self.keep_singles(alloc, next, standing, effect, domains)?;
        Ok(())
    }

    // Keeps the rule besides those of single domains, if there is one.
    fn keep_common(
        &mut self,
        alloc: Global,
        id: u32,
        standing: &Standing,
        effect: Effect,
        domains: &Parted,
    ) -> Result<(), NoMemory>
        requires some { 0 < id }
        requires few { id + length (in_common_of domains.now) ≤ 300001 }
        requires rules { GiveRules (standing_seen standing.now) (effect_seen effect) (in_common_of domains.now) }
        ensures kept { OnOk result (Keeps id (drafts (standing_seen standing.now) (effect_seen effect) (in_common_of domains.now)) self.old self.new) }
        ensures count { self.new.count ≡ self.old.count }
    {
        if domains.has_common() {
            let initiators = domains.common(alloc)?;
            self.keep(alloc, id, standing, effect, initiators)?;
        }
        Ok(())
    }

    // Keeps the rules of single domains.
    fn keep_singles(
        &mut self,
        alloc: Global,
        first: u32,
        standing: &Standing,
        effect: Effect,
        domains: &Parted,
    ) -> Result<(), NoMemory>
        requires some { 0 < first }
        requires few { first + vec_len domains.now.nested ≤ 300001 }
        requires rules { GiveRules (standing_seen standing.now) (effect_seen effect) (singles_of domains.now) }
        ensures kept { OnOk result (Keeps first (drafts (standing_seen standing.now) (effect_seen effect) (singles_of domains.now)) self.old self.new) }
        ensures count { self.new.count ≡ self.old.count }
    {
        let mut id = first;
        for domain in domains.nested.as_slice() {
            self.keep_single(alloc, id, standing, effect, domains, domain)?;
            id += 1;
        }
        Ok(())
    }

    // Keeps the rule of a single domain.
    fn keep_single(
        &mut self,
        alloc: Global,
        id: u32,
        standing: &Standing,
        effect: Effect,
        domains: &Parted,
        domain: &Text,
    ) -> Result<(), NoMemory>
        requires { IsGiven id (standing_seen standing.now) (effect_seen effect) (single domains.now.excluded.items domain.now) }
        ensures kept { OnOk result (Keeps id (drafts (standing_seen standing.now) (effect_seen effect) (single domains.now.excluded.items domain.now ∷ [])) self.old self.new) }
        ensures count { self.new.count ≡ self.old.count }
    {
        let initiators = domains.single(alloc, domain)?;
        self.keep(alloc, id, standing, effect, initiators)?;
        Ok(())
    }

    fn keep(
        &mut self,
        alloc: Global,
        id: u32,
        standing: &Standing,
        effect: Effect,
        initiators: Initiators,
    ) -> Result<(), NoMemory>
        requires { IsGiven id (standing_seen standing.now) (effect_seen effect) (initiators_seen initiators) }
        ensures kept { OnOk result (Keeps id (drafts (standing_seen standing.now) (effect_seen effect) (initiators_seen initiators ∷ [])) self.old self.new) }
        ensures count { self.new.count ≡ self.old.count }
    {
        let hosts = hosts_of(alloc, &standing.hosts)?;
        let rule = rule_of(alloc, id, &standing.filter, hosts, effect, initiators)?;
        let lines = copy_lines(alloc, standing.lines.as_slice())?;
        self.rules.push(rule)?;
        self.origins.push(lines)?;
        Ok(())
    }

    // Keeps the last rule of filters that stand as one.
    fn keep_last(
        &mut self,
        alloc: Global,
        id: u32,
        standing: Standing,
        effect: Effect,
        initiators: Initiators,
    ) -> Result<(), NoMemory>
        requires { IsGiven id (standing_seen standing) (effect_seen effect) (initiators_seen initiators) }
        ensures kept { OnOk result (Keeps id (drafts (standing_seen standing) (effect_seen effect) (initiators_seen initiators ∷ [])) self.old self.new) }
        ensures count { self.new.count ≡ self.old.count }
    {
        let Standing {
            lines,
            filter,
            hosts,
        } = standing;
        let hosts = into_hosts(alloc, hosts)?;
        let rule = rule_of(alloc, id, &filter, hosts, effect, initiators)?;
        self.rules.push(rule)?;
        self.origins.push(lines)?;
        Ok(())
    }
}

fn copy_lines(alloc: Global, lines: &[u32]) -> Result<Items<u32>, NoMemory>
    ensures { IfOk result (λ copy. copy ≡ lines.now) }
{
    let mut copy = Vec::with_capacity(alloc, lines.len())?;
    for line in lines {
        copy.push(*line)?;
    }
    Ok(Items::build(copy))
}
