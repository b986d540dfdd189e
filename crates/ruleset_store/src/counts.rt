ghost use Rattle.std.specs.Prelude.{◌≡◌, [], ◌∷◌, length, IfOk};
ghost use Rattle.update_spec.specs.Judge as spec;

use crate::count::sum;
use crate::{InstalledExtension, InstalledSet};
use dnr_base::NoMemory;

// The enabled rules of an extension that take nothing from the pool which all share.
const OWN_SHARE: usize = 30_000;

// How many of the rulesets are enabled.
pub(crate) fn count_enabled(sets: &[InstalledSet]) -> usize
    ensures { result ≡ length (spec.enabled_sets sets.now) }
{
    sets.iter().filter(|set| set.is_enabled()).count()
}

// How many rules the rulesets have, enabled or not.
pub(crate) fn count_rules(sets: &[InstalledSet]) -> Result<usize, NoMemory>
    ensures { IfOk result (λ count. count ≡ spec.count_rules sets.now) }
{
    let mut count = 0;
    for set in sets {
        count = sum(count, set.rules().len())?;
    }
    Ok(count)
}

// How many rules the ruleset has, if it is enabled.
fn enabled_rules(set: &InstalledSet) -> usize
    ensures { result ≡ spec.count_rules (spec.enabled_sets (set.now ∷ [])) }
{
    if set.is_enabled() {
        set.rules().len()
    } else {
        0
    }
}

// How many rules the enabled ones of the rulesets have.
fn count_enabled_rules(sets: &[InstalledSet]) -> Result<usize, NoMemory>
    ensures { IfOk result (λ count. count ≡ spec.count_rules (spec.enabled_sets sets.now)) }
{
    let mut count = 0;
    for set in sets {
        count = sum(count, enabled_rules(set))?;
    }
    Ok(count)
}

// What the extension takes from the pool that all share.
fn drawn_by(extension: &InstalledExtension) -> Result<usize, NoMemory>
    ensures { IfOk result (λ drawn. drawn ≡ spec.drawn_by extension.now) }
{
    Ok(count_enabled_rules(extension.sets())?.saturating_sub(OWN_SHARE))
}

// What the extensions take from the pool that all share.
pub(crate) fn drawn(extensions: &[InstalledExtension]) -> Result<usize, NoMemory>
    ensures { IfOk result (λ drawn. drawn ≡ spec.drawn extensions.now) }
{
    let mut drawn = 0;
    for extension in extensions {
        drawn = sum(drawn, drawn_by(extension)?)?;
    }
    Ok(drawn)
}

// How many rules of the ruleset have a `regexFilter`, if it is enabled.
fn enabled_patterns(set: &InstalledSet) -> usize
    ensures { result ≡ spec.count_patterns (spec.enabled_sets (set.now ∷ [])) }
{
    if set.is_enabled() {
        set.rules().patterns()
    } else {
        0
    }
}

// How many rules of the enabled rulesets have a `regexFilter`.
pub(crate) fn count_enabled_patterns(sets: &[InstalledSet]) -> Result<usize, NoMemory>
    ensures { IfOk result (λ count. count ≡ spec.count_patterns (spec.enabled_sets sets.now)) }
{
    let mut count = 0;
    for set in sets {
        count = sum(count, enabled_patterns(set))?;
    }
    Ok(count)
}

// How many rules of the rulesets are switched off.
pub(crate) fn count_disabled(sets: &[InstalledSet]) -> Result<usize, NoMemory>
    ensures { IfOk result (λ count. count ≡ spec.count_disabled sets.now) }
{
    let mut count = 0;
    for set in sets {
        count = sum(count, set.disabled().ids().len())?;
    }
    Ok(count)
}
