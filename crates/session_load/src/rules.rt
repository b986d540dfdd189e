//! The rules file of `match` and `check`.
ghost use Rattle.std.specs.Prelude.{◌≡◌, ◌≤◌, ◌++◌, IfOk, IfErr, OnOk, string_bytes};
ghost use Rattle.dnr_base.specs.Faults.{Rose, HasCauseOf};
ghost use Rattle.rule_spec.specs.declared.rule_kind.RuleKind.TheVariants.{Static};
ghost use Rattle.rules_file.specs.Answers.{refusal_seen};
ghost use Rattle.rules_file.specs.Load.{AreRead};
ghost use Rattle.session_load.specs.Loads.{StopsInRules};
ghost use Rattle.session_load.specs.Stops.{Prints};
ghost use Rattle.session_load.specs.Tells.{TellsLocal, TellsRules};
ghost use Rattle.session_spec.specs.Out.{loaded_with};
ghost use Rattle.session_spec.specs.Refusals.{refusal_line};

use crate::suffixes::no_suffixes;
use crate::{Loaded, Stop};
use dnr_base::{NoMemory, Text};
use dnr_io::Shelf;
use dnr_rules::Rule;
use explain_report::{write_bad_json, write_refused_rule};
use regex_host::RegexHost;
use rule_spec::RuleKind;
use rules_file::{FileRefusal, LoadRefusal};
use ruleset_store::{Extension, RuleSet};
use std::alloc::Global;

/// Reads the rules of a file, which are of this kind. The host checks their patterns.
///
/// # Errors
///
/// - `Refused`: the file is no JSON, or a rule of it is refused. Where the host failed at a pattern its count of faults
///   rose in this call.
/// - `ReadFault`: the shelf failed, and its count of faults rose.
/// - `FileTooLong`: the file has more bytes than a rules file may have.
/// - `NoMemory`: memory ran out.
pub fn load_rules<F: Shelf, H: RegexHost>(
    alloc: Global,
    name: &str,
    kind: RuleKind,
    shelf: &mut F,
    host: &mut H,
) -> Result<Vec<Rule>, Stop>
    requires { F.allows name.now }
    ensures rules { IfOk result (TellsRules (F.Source.files shelf.old) kind name.now) }
    ensures read { IfOk result (AreRead kind) }
    ensures stops { IfErr result (StopsInRules (F.Source.files shelf.old)
        (Rose (H.faults host.old) (H.faults host.new)) kind name.now) }
    ensures files { F.Source.files shelf.new ≡ F.Source.files shelf.old }
    ensures left { F.Source.left shelf.new ≡ F.Source.left shelf.old }
    ensures starts { F.Source.starts shelf.new ≡ F.Source.starts shelf.old }
    ensures later { H.faults host.old ≤ H.faults host.new }
    ensures cause { HasCauseOf Stop.ReadFault (F.Source.faults shelf.old) (F.Source.faults shelf.new) result }
{
    match rules_file::load_rules(alloc, name, kind, shelf, host) {
        Ok(rules) => Ok(rules),
        Err(LoadRefusal::BadFile(refusal)) => Err(refused(alloc, name, &refusal)),
        Err(LoadRefusal::ReadFault) => Err(Stop::ReadFault),
        Err(LoadRefusal::FileTooLong) => Err(Stop::FileTooLong),
        Err(LoadRefusal::NoMemory) => Err(Stop::NoMemory),
    }
}

/// Reads a rules file as the extension `local`, whose one ruleset is `rules`. There is no suffix list.
///
/// Its errors are those of `load_rules`.
pub fn load_local<F: Shelf, H: RegexHost>(
    alloc: Global,
    name: &str,
    shelf: &mut F,
    host: &mut H,
) -> Result<Loaded, Stop>
    requires { F.allows name.now }
    ensures loads { IfOk result (TellsLocal (F.Source.files shelf.old) name.now) }
    ensures stops { IfErr result (StopsInRules (F.Source.files shelf.old)
        (Rose (H.faults host.old) (H.faults host.new)) Static name.now) }
    ensures files { F.Source.files shelf.new ≡ F.Source.files shelf.old }
    ensures left { F.Source.left shelf.new ≡ F.Source.left shelf.old }
    ensures starts { F.Source.starts shelf.new ≡ F.Source.starts shelf.old }
    ensures later { H.faults host.old ≤ H.faults host.new }
    ensures cause { HasCauseOf Stop.ReadFault (F.Source.faults shelf.old) (F.Source.faults shelf.new) result }
{
    match load_rules(alloc, name, RuleKind::Static, shelf, host) {
        Ok(rules) => match local(alloc, rules) {
            Ok(loaded) => Ok(loaded),
            Err(NoMemory) => Err(Stop::NoMemory),
        },
        Err(stop) => Err(stop),
    }
}

fn local(alloc: Global, rules: Vec<Rule>) -> Result<Loaded, NoMemory>
    ensures { IfOk result (λ loaded. loaded ≡ loaded_with rules.items) }
{
    let id = Text::build(String::from_str(alloc, "rules")?);
    let mut sets = Vec::new(alloc);
    sets.push(RuleSet::build(alloc, id, true, rules, Vec::new(alloc))?)?;
    let name = Text::build(String::from_str(alloc, "local")?);
    let mut extensions = Vec::new(alloc);
    extensions.push(Extension::build(alloc, name, sets, None)?)?;
    Ok(Loaded {
        suffixes: no_suffixes(alloc)?,
        extensions,
    })
}

// What a refused rules file prints, unless memory runs out for it.
fn refused(alloc: Global, name: &str, refusal: &FileRefusal) -> Stop
    ensures { Prints (refusal_line name.now (refusal_seen refusal.now)) result }
{
    let mut line = String::new(alloc);
    match write_refusal(alloc, name, refusal, &mut line) {
        Ok(()) => Stop::Refused(line),
        Err(NoMemory) => Stop::NoMemory,
    }
}

fn write_refusal(
    alloc: Global,
    file: &str,
    refusal: &FileRefusal,
    into: &mut String,
) -> Result<(), NoMemory>
    ensures { OnOk result (string_bytes into.new ≡ string_bytes into.old ++ refusal_line file.now
        (refusal_seen refusal.now)) }
{
    match refusal {
        FileRefusal::BadJson => write_bad_json(alloc, file, into),
        FileRefusal::BadRules(refusal) => write_refused_rule(alloc, file, refusal, into),
    }
}
