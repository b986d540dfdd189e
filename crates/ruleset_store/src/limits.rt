ghost use Rattle.std.specs.Prelude.{◌≡◌, ◌<◌, ◌++◌, ◌∷◌, length, count_by, OnOk, IfOk, nat_lt, nat_le};
ghost use Rattle.update_spec.specs.declared.refusal.Refusal.TheVariants as refusal;
ghost use Rattle.update_spec.specs.Judge as spec;
ghost use Rattle.ruleset_store.specs.Seen.{Answers};
ghost use Rattle.ruleset_store.specs.Tests as tests;

use crate::counts::{count_disabled, count_enabled, count_enabled_patterns, count_rules, drawn};
use crate::{Extension, InstalledExtension, InstalledSet, RuleList};
use update_spec::Refusal;

const MAX_EXTENSIONS: usize = 16;

const MAX_RULESETS: usize = 100;

const MAX_RULES: usize = 330_000;

const MAX_ENABLED: usize = 50;

const MAX_DRAWN: usize = 300_000;

const MAX_DYNAMIC: usize = 30_000;

const MAX_UNSAFE: usize = 5_000;

const MAX_SESSION: usize = 5_000;

const MAX_PATTERNS: usize = 1_000;

const MAX_DISABLED: usize = 5_000;

const MAX_UPDATES: u32 = 1_000_000;

// Refused so, where there are more than there may be.
fn within(most: usize, count: usize, refusal: Refusal) -> Result<(), Refusal>
    ensures { Answers (spec.refused_if (nat_lt most count) refusal) result }
{
    if most < count {
        return Err(refusal);
    }
    Ok(())
}

pub(crate) fn judge_extensions(extensions: &[InstalledExtension]) -> Result<(), Refusal>
    ensures { Answers (spec.limited 16 refusal.ExtensionLimit (length extensions.now)) result }
{
    let count = extensions.len();
    within(MAX_EXTENSIONS, count, Refusal::ExtensionLimit(count))
}

pub(crate) fn judge_rulesets(extension: &Extension) -> Result<(), Refusal>
    ensures { Answers (spec.limited 100 refusal.RulesetLimit (length extension.now.sets)) result }
{
    let count = extension.sets().len();
    within(MAX_RULESETS, count, Refusal::RulesetLimit(count))
}

pub(crate) fn judge_rules(sets: &[InstalledSet]) -> Result<(), Refusal>
    ensures { Answers (spec.limited 330000 refusal.RulesLimit (spec.count_rules sets.now)) result }
{
    let count = count_rules(sets)?;
    within(MAX_RULES, count, Refusal::RulesLimit(count))
}

fn judge_enabled(sets: &[InstalledSet]) -> Result<(), Refusal>
    ensures { Answers (spec.limited 50 refusal.EnabledLimit (length (spec.enabled_sets sets.now))) result }
{
    let count = count_enabled(sets);
    within(MAX_ENABLED, count, Refusal::EnabledLimit(count))
}

fn judge_pool(extensions: &[InstalledExtension]) -> Result<(), Refusal>
    ensures { Answers (spec.limited 300000 refusal.PoolLimit (spec.drawn extensions.now)) result }
{
    let count = drawn(extensions)?;
    within(MAX_DRAWN, count, Refusal::PoolLimit(count))
}

fn judge_patterns(sets: &[InstalledSet]) -> Result<(), Refusal>
    ensures { Answers (spec.limited 1000 refusal.RegexLimit (spec.count_patterns (spec.enabled_sets sets.now))) result }
{
    let count = count_enabled_patterns(sets)?;
    within(MAX_PATTERNS, count, Refusal::RegexLimit(count))
}

// One update more than so many.
pub(crate) fn judge_count(count: u32) -> Result<(), Refusal>
    ensures answer { Answers (tests.count_test count) result }
    ensures fits { OnOk result (count < spec.max_updates) }
{
    if MAX_UPDATES <= count {
        return Err(Refusal::TooManyUpdates(MAX_UPDATES as usize));
    }
    Ok(())
}

// The limits of rulesets that are enabled, in a state of these extensions.
pub(crate) fn judge_sets(
    count: u32,
    sets: &[InstalledSet],
    extensions: &[InstalledExtension],
) -> Result<(), Refusal>
    ensures answer { Answers (spec.first_refusal (tests.set_limits count sets.now extensions.now)) result }
    ensures fits { OnOk result (count < spec.max_updates) }
{
    judge_enabled(sets)?;
    judge_pool(extensions)?;
    judge_patterns(sets)?;
    judge_count(count)
}

fn judge_rule_patterns(rules: &RuleList) -> Result<(), Refusal>
    ensures { Answers (spec.limited 1000 refusal.RegexLimit (count_by spec.uses_regex rules.now)) result }
{
    let count = rules.patterns();
    within(MAX_PATTERNS, count, Refusal::RegexLimit(count))
}

fn judge_dynamic_count(rules: &RuleList) -> Result<(), Refusal>
    ensures { Answers (spec.limited 30000 refusal.DynamicLimit (length rules.now)) result }
{
    let count = rules.len();
    within(MAX_DYNAMIC, count, Refusal::DynamicLimit(count))
}

fn judge_unsafe(rules: &RuleList) -> Result<(), Refusal>
    ensures { Answers (spec.limited 5000 refusal.UnsafeLimit (spec.count_unsafe rules.now)) result }
{
    let count = rules.unsafe_rules();
    within(MAX_UNSAFE, count, Refusal::UnsafeLimit(count))
}

// The limits of dynamic rules.
pub(crate) fn judge_dynamic(count: u32, rules: &RuleList) -> Result<(), Refusal>
    ensures answer { Answers (spec.first_refusal (tests.dynamic_limits count rules.now)) result }
    ensures fits { OnOk result (count < spec.max_updates) }
{
    judge_dynamic_count(rules)?;
    judge_unsafe(rules)?;
    judge_rule_patterns(rules)?;
    judge_count(count)
}

fn judge_session_count(rules: &RuleList) -> Result<(), Refusal>
    ensures { Answers (spec.limited 5000 refusal.SessionLimit (length rules.now)) result }
{
    let count = rules.len();
    within(MAX_SESSION, count, Refusal::SessionLimit(count))
}

// The limits of session rules.
pub(crate) fn judge_session(count: u32, rules: &RuleList) -> Result<(), Refusal>
    ensures answer { Answers (spec.first_refusal (tests.session_limits count rules.now)) result }
    ensures fits { OnOk result (count < spec.max_updates) }
{
    judge_session_count(rules)?;
    judge_rule_patterns(rules)?;
    judge_count(count)
}

fn judge_disabled_count(sets: &[InstalledSet]) -> Result<(), Refusal>
    ensures { Answers (spec.limited 5000 refusal.DisabledLimit (spec.count_disabled sets.now)) result }
{
    let count = count_disabled(sets)?;
    within(MAX_DISABLED, count, Refusal::DisabledLimit(count))
}

// The limit of rules that are switched off.
pub(crate) fn judge_disabled(count: u32, sets: &[InstalledSet]) -> Result<(), Refusal>
    ensures answer { Answers (spec.first_refusal (tests.disabled_limits count sets.now)) result }
    ensures fits { OnOk result (count < spec.max_updates) }
{
    judge_disabled_count(sets)?;
    judge_count(count)
}
