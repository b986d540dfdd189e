//! One extension, as the words name it.
ghost use Rattle.std.specs.Prelude.{◌≡◌, ◌≤◌, IfOk, IfErr, string_bytes};
ghost use Rattle.dnr_base.specs.Faults.{Rose, HasCauseOf};
ghost use Rattle.dnr_words.specs.Seen.{installed_seen};
ghost use Rattle.manifest_read.specs.Asked.{MayAskExtension};
ghost use Rattle.session_load.specs.Asked.{MayAsk};
ghost use Rattle.session_load.specs.Extensions.{StopsFor, extension_in};
ghost use Rattle.session_load.specs.Extensions.{bad_json_line, bad_manifest_line, bad_rule_line};
ghost use Rattle.session_load.specs.Loads.{StopsInOne};
ghost use Rattle.session_load.specs.Stops.{Prints};
ghost use Rattle.session_load.specs.Tells.{TellsFolder, TellsListAs, TellsOne};
ghost use Rattle.session_spec.specs.Words.{folder, list};

use crate::Stop;
use crate::lists::{CompiledList, load_list};
use abp_compile::Report;
use dnr_base::{NoMemory, Text};
use dnr_io::Shelf;
use dnr_words::Installed;
use explain_report::{write_bad_json, write_bad_manifest, write_refused_rule};
use load_spec::ManifestPath;
use manifest_read::{ManifestRefusal, read_extension};
use regex_host::RegexHost;
use rule_spec::PlacedRefusal;
use ruleset_store::{Extension, RuleSet};
use std::alloc::Global;

// Reads an extension of a folder, or a filter list as the extension of its name.
pub(crate) fn load_one<F: Shelf, H: RegexHost>(
    alloc: Global,
    installed: &Installed<'_>,
    shelf: &mut F,
    host: &mut H,
) -> Result<Extension, Stop>
    requires { MayAsk F.allows (F.Source.files shelf.old) (installed_seen installed.now) }
    ensures reads { IfOk result (TellsOne (F.Source.files shelf.old) (installed_seen installed.now)) }
    ensures stops { IfErr result (StopsInOne (F.Source.files shelf.old)
        (Rose (H.faults host.old) (H.faults host.new)) (installed_seen installed.now)) }
    ensures files { F.Source.files shelf.new ≡ F.Source.files shelf.old }
    ensures left { F.Source.left shelf.new ≡ F.Source.left shelf.old }
    ensures starts { F.Source.starts shelf.new ≡ F.Source.starts shelf.old }
    ensures later { H.faults host.old ≤ H.faults host.new }
    ensures cause { HasCauseOf Stop.ReadFault (F.Source.faults shelf.old) (F.Source.faults shelf.new) result }
{
    match installed {
        Installed::Folder(name) => load_folder(alloc, name, shelf, host),
        Installed::List(name, file) => load_as_list(alloc, name, file, shelf, host),
    }
}

fn load_folder<F: Shelf, H: RegexHost>(
    alloc: Global,
    name: &str,
    shelf: &mut F,
    host: &mut H,
) -> Result<Extension, Stop>
    requires { MayAskExtension F.allows (F.Source.files shelf.old) name.now }
    ensures reads { IfOk result (TellsFolder (F.Source.files shelf.old) name.now) }
    ensures stops { IfErr result (StopsInOne (F.Source.files shelf.old)
        (Rose (H.faults host.old) (H.faults host.new)) (folder name.now)) }
    ensures files { F.Source.files shelf.new ≡ F.Source.files shelf.old }
    ensures left { F.Source.left shelf.new ≡ F.Source.left shelf.old }
    ensures starts { F.Source.starts shelf.new ≡ F.Source.starts shelf.old }
    ensures later { H.faults host.old ≤ H.faults host.new }
    ensures cause { HasCauseOf Stop.ReadFault (F.Source.faults shelf.old) (F.Source.faults shelf.new) result }
{
    match read_extension(alloc, shelf, name, host) {
        Ok(extension) => Ok(extension),
        Err(refusal) => Err(stop_of(alloc, name, &refusal)),
    }
}

fn stop_of(alloc: Global, name: &str, refusal: &ManifestRefusal) -> Stop
    ensures { StopsFor name.now refusal.now result }
{
    match refusal {
        ManifestRefusal::ReadFault => Stop::ReadFault,
        ManifestRefusal::FileTooLong(_) => Stop::FileTooLong,
        ManifestRefusal::BadJson(file) => bad_json(alloc, file.as_str()),
        ManifestRefusal::BadManifest(field) => bad_manifest(alloc, name, *field),
        ManifestRefusal::RuleRefused(file, refusal) => bad_rule(alloc, file.as_str(), refusal),
        ManifestRefusal::NoMemory => Stop::NoMemory,
    }
}

fn bad_json(alloc: Global, file: &str) -> Stop
    ensures { Prints (bad_json_line file.now) result }
{
    let mut line = String::new(alloc);
    match write_bad_json(alloc, file, &mut line) {
        Ok(()) => Stop::Refused(line),
        Err(NoMemory) => Stop::NoMemory,
    }
}

fn bad_rule(alloc: Global, file: &str, refusal: &PlacedRefusal) -> Stop
    ensures { Prints (bad_rule_line file.now refusal.now) result }
{
    let mut line = String::new(alloc);
    match write_refused_rule(alloc, file, refusal, &mut line) {
        Ok(()) => Stop::Refused(line),
        Err(NoMemory) => Stop::NoMemory,
    }
}

fn bad_manifest(alloc: Global, extension: &str, field: ManifestPath) -> Stop
    ensures { Prints (bad_manifest_line extension.now field) result }
{
    match write_manifest(alloc, extension, field) {
        Ok(line) => Stop::Refused(line),
        Err(NoMemory) => Stop::NoMemory,
    }
}

// What the manifest of an extension prints that has a field at fault.
fn write_manifest(alloc: Global, extension: &str, field: ManifestPath) -> Result<String, NoMemory>
    ensures { IfOk result (λ line. string_bytes line ≡ bad_manifest_line extension.now field) }
{
    let mut file = String::from_str(alloc, extension)?;
    file.push_str("/manifest.json")?;
    let mut line = String::new(alloc);
    write_bad_manifest(alloc, file.as_str(), field, &mut line)?;
    Ok(line)
}

fn load_as_list<F: Shelf, H: RegexHost>(
    alloc: Global,
    name: &str,
    file: &str,
    shelf: &mut F,
    host: &mut H,
) -> Result<Extension, Stop>
    requires { F.allows file.now }
    ensures reads { IfOk result (TellsListAs (F.Source.files shelf.old) name.now file.now) }
    ensures stops { IfErr result (StopsInOne (F.Source.files shelf.old)
        (Rose (H.faults host.old) (H.faults host.new)) (list name.now file.now)) }
    ensures files { F.Source.files shelf.new ≡ F.Source.files shelf.old }
    ensures left { F.Source.left shelf.new ≡ F.Source.left shelf.old }
    ensures starts { F.Source.starts shelf.new ≡ F.Source.starts shelf.old }
    ensures later { H.faults host.old ≤ H.faults host.new }
    ensures cause { HasCauseOf Stop.ReadFault (F.Source.faults shelf.old) (F.Source.faults shelf.new) result }
{
    match load_list(alloc, file, shelf, host) {
        Ok(list) => match extension_of(alloc, name, list) {
            Ok(extension) => Ok(extension),
            Err(NoMemory) => Err(Stop::NoMemory),
        },
        Err(stop) => Err(stop),
    }
}

// The list as the extension of this name, whose one ruleset is `list`.
fn extension_of(alloc: Global, name: &str, list: CompiledList) -> Result<Extension, NoMemory>
    ensures { IfOk result (λ extension. extension ≡ extension_in name.now list) }
{
    let CompiledList { rules, report } = list;
    let Report { origins, .. } = report;
    let id = Text::build(String::from_str(alloc, "list")?);
    let mut sets = Vec::new(alloc);
    sets.push(RuleSet::build(alloc, id, true, rules, origins)?)?;
    let name = Text::build(String::from_str(alloc, name)?);
    Extension::build(alloc, name, sets, None)
}
