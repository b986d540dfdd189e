// Which rule a fault of the host names.
ghost use Rattle.std.specs.Prelude.{◌≡◌, IsSome, OnOk};
ghost use Rattle.generation.specs.Refused as spec;
ghost use Rattle.rule_spec.specs.Scan.{name_of};

use crate::DecideRefusal;
use crate::live::Live;
use dnr_base::{NoMemory, RuleName, Text};
use rule_match::MatchRefusal;
use std::alloc::Global;

// No rule's name. It takes no memory.
pub(crate) fn no_name(alloc: Global) -> RuleName {
    RuleName {
        ext: Text::build(String::new(alloc)),
        set: Text::build(String::new(alloc)),
        id: 0,
    }
}

// Puts the rule's name in place of another, if the host may be asked for its pattern. This is done before: a fault
// could not be told for want of memory otherwise. Rules of one ruleset are named without memory behind the first.
pub(crate) fn name_asked(
    alloc: Global,
    name: &mut RuleName,
    extension: &str,
    live: &Live<'_>,
) -> Result<(), NoMemory>
    ensures { OnOk result (IsSome live.now.rule.condition.regex_filter → name.new ≡ name_of extension.now live.now) }
{
    if !live.rule.uses_regex() {
        return Ok(());
    }
    if name.ext.as_str() != extension || name.set.as_str() != live.set {
        *name = live.name(alloc, extension)?;
    }
    name.id = live.rule.id();
    Ok(())
}

// The refusal of a scan whose test of the rule of this name was refused.
pub(crate) fn refusal_by(refusal: MatchRefusal, name: RuleName) -> DecideRefusal
    ensures { result ≡ spec.refusal_by refusal name }
{
    match refusal {
        MatchRefusal::NoMemory => DecideRefusal::NoMemory,
        MatchRefusal::HostFault => DecideRefusal::HostFault(name),
    }
}
