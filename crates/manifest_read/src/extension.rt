ghost use Rattle.std.specs.Prelude.{◌≡◌, ◌≤◌, IfOk, IfErr, IfSome};
ghost use Rattle.std.specs.List.{AllZip};
ghost use Rattle.dnr_base.specs.Faults.{Rose, HasCauseOf};
ghost use Rattle.load_spec.specs.Extensions.{HoldsExtension, HoldsManifest, HoldsSet, file_in, manifest_name, set_of};
ghost use Rattle.manifest_read.specs.Asked.{MayAskExtension, MayAskSets, MayHoldManifest};
ghost use Rattle.manifest_read.specs.Refusals.{Refuses, IsNoMemoryApart, RefusesManifest, RefusesSet, RefusesSets, fetch_refusal, manifest_refusal, set_refusal};

use crate::ManifestRefusal;
use crate::fault::Fault;
use crate::manifest::{Manifest, read_bytes};
use crate::resource::Resource;
use dnr_base::{NoMemory, Text};
use dnr_io::{Shelf, ShelfRefusal};
use dnr_rules::Rule;
use regex_host::RegexHost;
use rule_spec::RuleKind;
use rules_file::{FileRefusal, LoadRefusal, MAX_FILE, load_rules};
use ruleset_store::{Extension, RuleSet};
use std::alloc::Global;

/// Reads the extension of the folder of this name: its manifest `manifest.json`, and the static rulesets that the
/// manifest names, in its order (Chrome's reference of declarativeNetRequest, `rule_resources`), and what it may touch
/// (`host_permissions`). The manifest is
/// tested whole before a rules file is opened, so a path that leaves the folder opens none.
///
/// # Errors
///
/// - `ReadFault`: the shelf failed, as it does where it has no such file.
/// - `FileTooLong`: a file has more than 33,554,432 bytes.
/// - `BadJson`: a file is no JSON.
/// - `BadManifest`: a field of the manifest is missing or has another form.
/// - `RuleRefused`: a rules file has a rule that is refused. `HostFault` comes only where the count of the host rose.
/// - `NoMemory`: memory ran out.
///
/// The files are read one after another, and the first that is refused ends the reading.
#[tactic(auto, using(crate::proofs::Whole::holds_extension, crate::proofs::Whole::refused_by_manifest, crate::proofs::Whole::refused_by_sets, crate::proofs::Sets::rose_since))]
pub fn read_extension<F: Shelf, H: RegexHost>(
    alloc: Global,
    shelf: &mut F,
    name: &str,
    host: &mut H,
) -> Result<Extension, ManifestRefusal>
    requires { MayAskExtension F.allows (F.Source.files shelf.old) name.now }
    ensures ok { IfOk result (λ extension. IfSome (F.Source.files shelf.old) (λ files.
        HoldsExtension files name.now extension)) }
    ensures refused { IfErr result (λ refusal. IfSome (F.Source.files shelf.old) (λ files.
        Refuses files (Rose (H.faults host.old) (H.faults host.new)) name.now refusal)) }
    ensures apart { IfErr result IsNoMemoryApart }
    ensures later { H.faults host.old ≤ H.faults host.new }
    ensures files { F.Source.files shelf.new ≡ F.Source.files shelf.old }
    ensures left { F.Source.left shelf.new ≡ F.Source.left shelf.old }
    ensures starts { F.Source.starts shelf.new ≡ F.Source.starts shelf.old }
    ensures cause { HasCauseOf ManifestRefusal.ReadFault (F.Source.faults shelf.old)
        (F.Source.faults shelf.new) result }
{
    let manifest = read_manifest(alloc, shelf, name)?;
    let sets = read_sets(alloc, shelf, name, &manifest.resources, host)?;
    let name = Text::build(String::from_str(alloc, name)?);
    Ok(Extension::build(alloc, name, sets, manifest.access)?)
}

// Reads the manifest.
fn read_manifest<F: Shelf>(
    alloc: Global,
    shelf: &mut F,
    name: &str,
) -> Result<Manifest, ManifestRefusal>
    requires { F.allows (manifest_name name.now) }
    ensures ok { IfOk result (λ manifest. IfSome (F.Source.files shelf.old) (λ files.
        HoldsManifest files name.now manifest)) }
    ensures held { IfOk result (MayHoldManifest (F.Source.files shelf.old) name.now) }
    ensures refused { IfErr result (λ refusal. IfSome (F.Source.files shelf.old) (λ files.
        RefusesManifest files name.now refusal)) }
    ensures apart { IfErr result IsNoMemoryApart }
    ensures files { F.Source.files shelf.new ≡ F.Source.files shelf.old }
    ensures left { F.Source.left shelf.new ≡ F.Source.left shelf.old }
    ensures starts { F.Source.starts shelf.new ≡ F.Source.starts shelf.old }
    ensures cause { HasCauseOf ManifestRefusal.ReadFault (F.Source.faults shelf.old)
        (F.Source.faults shelf.new) result }
{
    let file = file_in(alloc, name, "manifest.json")?;
    let mut bytes = Vec::new(alloc);
    if let Err(refusal) = shelf.fetch(file.as_str(), MAX_FILE, &mut bytes) {
        return Err(fetch_refusal(file, refusal));
    }
    match read_bytes(alloc, &bytes) {
        Ok(manifest) => Ok(manifest),
        Err(fault) => Err(manifest_refusal(file, fault)),
    }
}

// The name of a file in the folder of an extension.
fn file_in(alloc: Global, extension: &str, file: &str) -> Result<Text, NoMemory>
    ensures { IfOk result (λ name. name ≡ file_in extension.now file.now) }
{
    let mut name = String::from_str(alloc, extension)?;
    name.push('/')?;
    name.push_str(file)?;
    Ok(Text::build(name))
}

fn fetch_refusal(file: Text, refusal: ShelfRefusal) -> ManifestRefusal
    ensures { result ≡ fetch_refusal file refusal }
{
    match refusal {
        ShelfRefusal::Failed => ManifestRefusal::ReadFault,
        ShelfRefusal::TooLong => ManifestRefusal::FileTooLong(file),
        ShelfRefusal::NoMemory => ManifestRefusal::NoMemory,
    }
}

fn manifest_refusal(file: Text, fault: Fault) -> ManifestRefusal
    ensures { result ≡ manifest_refusal file fault }
{
    match fault {
        Fault::BadJson => ManifestRefusal::BadJson(file),
        Fault::At(field) => ManifestRefusal::BadManifest(field),
        Fault::NoMemory => ManifestRefusal::NoMemory,
    }
}

// Reads the rulesets in the order of the manifest.
#[tactic(auto, using(crate::proofs::Sets::sets_begin, crate::proofs::Sets::sets_go, crate::proofs::Sets::sets_stop, crate::proofs::Sets::sets_end, crate::proofs::Sets::rose_since))]
fn read_sets<F: Shelf, H: RegexHost>(
    alloc: Global,
    shelf: &mut F,
    name: &str,
    resources: &[Resource],
    host: &mut H,
) -> Result<Vec<RuleSet>, ManifestRefusal>
    requires { MayAskSets F.allows name.now resources.now }
    ensures ok { IfOk result (λ sets. IfSome (F.Source.files shelf.old) (λ files.
        AllZip (HoldsSet files name.now) resources.now sets.items)) }
    ensures refused { IfErr result (λ refusal. IfSome (F.Source.files shelf.old) (λ files.
        RefusesSets files (Rose (H.faults host.old) (H.faults host.new)) name.now resources.now refusal)) }
    ensures apart { IfErr result IsNoMemoryApart }
    ensures later { H.faults host.old ≤ H.faults host.new }
    ensures files { F.Source.files shelf.new ≡ F.Source.files shelf.old }
    ensures left { F.Source.left shelf.new ≡ F.Source.left shelf.old }
    ensures starts { F.Source.starts shelf.new ≡ F.Source.starts shelf.old }
    ensures cause { HasCauseOf ManifestRefusal.ReadFault (F.Source.faults shelf.old)
        (F.Source.faults shelf.new) result }
{
    let mut sets = Vec::with_capacity(alloc, resources.len())?;
    for resource in resources {
        let set = read_set(alloc, shelf, name, resource, host)?;
        sets.push(set)?;
    }
    Ok(sets)
}

#[tactic(auto, using(crate::proofs::Whole::holds_set, crate::proofs::Whole::set_refused, crate::proofs::Whole::memory_apart))]
fn read_set<F: Shelf, H: RegexHost>(
    alloc: Global,
    shelf: &mut F,
    name: &str,
    resource: &Resource,
    host: &mut H,
) -> Result<RuleSet, ManifestRefusal>
    requires { F.allows (file_in name.now resource.now.path) }
    ensures ok { IfOk result (λ set. IfSome (F.Source.files shelf.old) (λ files.
        HoldsSet files name.now resource.now set)) }
    ensures refused { IfErr result (λ refusal. IfSome (F.Source.files shelf.old) (λ files.
        RefusesSet files (Rose (H.faults host.old) (H.faults host.new)) name.now refusal resource.now)) }
    ensures apart { IfErr result IsNoMemoryApart }
    ensures later { H.faults host.old ≤ H.faults host.new }
    ensures files { F.Source.files shelf.new ≡ F.Source.files shelf.old }
    ensures left { F.Source.left shelf.new ≡ F.Source.left shelf.old }
    ensures starts { F.Source.starts shelf.new ≡ F.Source.starts shelf.old }
    ensures cause { HasCauseOf ManifestRefusal.ReadFault (F.Source.faults shelf.old)
        (F.Source.faults shelf.new) result }
{
    let file = file_in(alloc, name, resource.path())?;
    match load_rules(alloc, file.as_str(), RuleKind::Static, shelf, host) {
        Ok(rules) => Ok(set_of(alloc, resource, rules)?),
        Err(refusal) => Err(set_refusal(file, refusal)),
    }
}

// The ruleset of these rules.
fn set_of(alloc: Global, resource: &Resource, rules: Vec<Rule>) -> Result<RuleSet, NoMemory>
    ensures { IfOk result (λ set. set ≡ set_of resource.now rules.items) }
{
    let id = resource.id().copy(alloc)?;
    RuleSet::build(alloc, id, resource.is_enabled(), rules, Vec::new(alloc))
}

fn set_refusal(file: Text, refusal: LoadRefusal) -> ManifestRefusal
    ensures { result ≡ set_refusal file refusal }
{
    match refusal {
        LoadRefusal::BadFile(FileRefusal::BadJson) => ManifestRefusal::BadJson(file),
        LoadRefusal::BadFile(FileRefusal::BadRules(refusal)) => {
            ManifestRefusal::RuleRefused(file, refusal)
        }
        LoadRefusal::ReadFault => ManifestRefusal::ReadFault,
        LoadRefusal::FileTooLong => ManifestRefusal::FileTooLong(file),
        LoadRefusal::NoMemory => ManifestRefusal::NoMemory,
    }
}
