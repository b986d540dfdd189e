// The updates.
ghost use Rattle.std.specs.Prelude.{◌≡◌, ◌≤◌, Ok, IfOk, IfErr, OnOk, option_map};
ghost use Rattle.std.specs.List.{list_all};
ghost use Rattle.std.specs.Option.{option_copied};
ghost use Rattle.serde_json.specs.Data.{Data};
ghost use Rattle.serde_json.specs.View.{view};
ghost use Rattle.dnr_base.specs.Faults.{Rose};
ghost use Rattle.json_spec.specs.Json.{tree_of};
ghost use Rattle.line_spec.specs.Names.{is_name_byte, is_extension_name};
ghost use Rattle.line_spec.specs.Updates as spec;
ghost use Rattle.line_spec.specs.Stops.{StopsInAdded, StopsInInstall, StopsInUpdate};
ghost use Rattle.ruleset_store.specs.Seen.{update_seen};
ghost use Rattle.script_read.specs.Faults.{IsFaultOf, MayRefuse, IsQuiet};
ghost use Rattle.rules_file.specs.Listed.{IsObject};
ghost use Rattle.script_read.specs.Apart.{IsKeptOf, StopsApart, StopsInTheUpdate, added_by, replacing_with, update_of_tree};
ghost use Rattle.script_read.specs.Updates.{made_by};

use crate::rules::{add_in, add_of};
use crate::rulesets::sets_in;
use crate::update_fields::{remove_in, text_in, texts_in, wholes_in};
use access_read::patterns_in;
use dnr_base::{Items, Text};
use dnr_rules::RuleKind;
use json::Scratch;
use line_spec::{UpdateFault, UpdateField, UpdateName};
use match_patterns::MatchPattern;
use regex_host::RegexHost;
use ruleset_store::{Extension, SharedRule, Update};
use serde_json::Value;
use std::alloc::Global;
use std::sync::Arc;

// The most bytes of an extension's name.
const MAX_NAME: usize = 64;

// The update of this name.
pub(crate) fn update_in<H: RegexHost>(
    alloc: Global,
    name: UpdateName,
    tree: &Value,
    host: &mut H,
) -> Result<Update, UpdateFault>
    ensures read { IfOk result (λ update. spec.update_in name (view tree.now) ≡ Ok (update_seen update)) }
    ensures refused { IfErr result (MayRefuse (spec.update_in name (view tree.now)) (λ refusal.
        Rose (H.faults host.old) (H.faults host.new) × StopsInUpdate name (view tree.now) refusal)) }
    ensures calm { OnOk result (H.faults host.new ≡ H.faults host.old) }
    ensures quiet { IfErr result (IsQuiet (H.faults host.old) (H.faults host.new)) }
    ensures later { H.faults host.old ≤ H.faults host.new }
{
    match name {
        UpdateName::Dynamic => replacing_in(alloc, RuleKind::Dynamic, tree, host),
        UpdateName::Session => replacing_in(alloc, RuleKind::Session, tree, host),
        UpdateName::Rulesets => rulesets_in(alloc, tree),
        UpdateName::Static => static_in(alloc, tree),
        UpdateName::Install => install_in(alloc, tree, host),
        UpdateName::Uninstall => uninstall_in(alloc, tree),
    }
}

// Rules of this kind are removed, and others added.
#[tactic(auto, unfolding(line_spec::specs::Updates::replacing_in))]
fn replacing_in<H: RegexHost>(
    alloc: Global,
    kind: RuleKind,
    tree: &Value,
    host: &mut H,
) -> Result<Update, UpdateFault>
    ensures read { IfOk result (λ update.
        spec.replacing_in kind (made_by kind) (view tree.now) ≡ Ok (update_seen update)) }
    ensures refused { IfErr result
        (MayRefuse (spec.replacing_in kind (made_by kind) (view tree.now)) (λ refusal.
        Rose (H.faults host.old) (H.faults host.new) × StopsInAdded kind (view tree.now) refusal)) }
    ensures calm { OnOk result (H.faults host.new ≡ H.faults host.old) }
    ensures quiet { IfErr result (IsQuiet (H.faults host.old) (H.faults host.new)) }
    ensures later { H.faults host.old ≤ H.faults host.new }
{
    let extension = text_in(alloc, UpdateField::Extension, tree)?;
    let remove = remove_in(alloc, tree)?;
    let add = add_in(alloc, kind, tree, host)?;
    let add = SharedRule::all_of(alloc, add)?;
    Ok(made_by(kind, extension, remove, Items::build(add)))
}

// The update of a line, of which these members were kept; its rules are read of its text.
#[tactic(auto, using(crate::proofs::Apart::with_rules, crate::proofs::Apart::with_rules_stops, crate::proofs::Apart::without_rules, crate::proofs::Apart::without_rules_stops))]
pub(crate) fn update_of_line<H: RegexHost>(
    alloc: Global,
    name: UpdateName,
    kept: &Value,
    bytes: &[u8],
    scratch: &mut Scratch,
    host: &mut H,
) -> Result<Update, UpdateFault>
    requires { IsKeptOf (view kept.now) (tree_of bytes.now) }
    ensures read { IfOk result (λ update. update_of_tree name (tree_of bytes.now) ≡ Ok (update_seen update)) }
    ensures refused { IfErr result (MayRefuse (update_of_tree name (tree_of bytes.now)) (λ refusal.
        Rose (H.faults host.old) (H.faults host.new)
        × StopsInTheUpdate name (tree_of bytes.now) refusal)) }
    ensures calm { OnOk result (H.faults host.new ≡ H.faults host.old) }
    ensures quiet { IfErr result (IsQuiet (H.faults host.old) (H.faults host.new)) }
    ensures later { H.faults host.old ≤ H.faults host.new }
{
    match added_by(name) {
        Some(kind) => replacing_with(alloc, kind, kept, bytes, scratch, host),
        None => update_in(alloc, name, kept, host),
    }
}

// The kind of the rules that the update adds.
fn added_by(name: UpdateName) -> Option<RuleKind>
    ensures { result ≡ added_by name }
{
    match name {
        UpdateName::Dynamic => Some(RuleKind::Dynamic),
        UpdateName::Session => Some(RuleKind::Session),
        UpdateName::Rulesets | UpdateName::Static | UpdateName::Install | UpdateName::Uninstall =>
            None,
    }
}

#[tactic(auto, using(crate::proofs::Apart::extension_apart, crate::proofs::Apart::removed_apart, crate::proofs::Apart::added_apart), unfolding(crate::specs::Apart::replacing_with))]
fn replacing_with<H: RegexHost>(
    alloc: Global,
    kind: RuleKind,
    kept: &Value,
    bytes: &[u8],
    scratch: &mut Scratch,
    host: &mut H,
) -> Result<Update, UpdateFault>
    requires { (d : Data) × IsObject bytes.now d }
    ensures read { IfOk result (λ update.
        replacing_with kind (made_by kind) (view kept.now) (tree_of bytes.now) ≡ Ok (update_seen update)) }
    ensures refused { IfErr result
        (MayRefuse (replacing_with kind (made_by kind) (view kept.now) (tree_of bytes.now)) (λ refusal.
        Rose (H.faults host.old) (H.faults host.new)
        × StopsApart kind (view kept.now) (tree_of bytes.now) refusal)) }
    ensures calm { OnOk result (H.faults host.new ≡ H.faults host.old) }
    ensures quiet { IfErr result (IsQuiet (H.faults host.old) (H.faults host.new)) }
    ensures later { H.faults host.old ≤ H.faults host.new }
{
    let extension = text_in(alloc, UpdateField::Extension, kept)?;
    let remove = remove_in(alloc, kept)?;
    let add = add_of(alloc, kind, bytes, scratch, host)?;
    let add = SharedRule::all_of(alloc, add)?;
    Ok(made_by(kind, extension, remove, Items::build(add)))
}

fn made_by(kind: RuleKind, extension: Text, remove: Items<u32>, add: Items<SharedRule>) -> Update
    ensures { update_seen result ≡ made_by kind extension remove add }
{
    match kind {
        RuleKind::Session => Update::Session {
            extension,
            remove,
            add,
        },
        _ => Update::Dynamic {
            extension,
            remove,
            add,
        },
    }
}

#[tactic(auto, using(crate::proofs::Chains::stops_there), unfolding(line_spec::specs::Updates::rulesets_in))]
fn rulesets_in(alloc: Global, tree: &Value) -> Result<Update, UpdateFault>
    ensures read { IfOk result (λ update. spec.rulesets_in (view tree.now) ≡ Ok (update_seen update)) }
    ensures refused { IfErr result (IsFaultOf (spec.rulesets_in (view tree.now))) }
{
    let extension = text_in(alloc, UpdateField::Extension, tree)?;
    let disable = texts_in(alloc, UpdateField::DisableRulesetIds, tree)?;
    let enable = texts_in(alloc, UpdateField::EnableRulesetIds, tree)?;
    Ok(Update::Rulesets {
        extension,
        disable,
        enable,
    })
}

#[tactic(auto, using(crate::proofs::Chains::stops_there), unfolding(line_spec::specs::Updates::static_in))]
fn static_in(alloc: Global, tree: &Value) -> Result<Update, UpdateFault>
    ensures read { IfOk result (λ update. spec.static_in (view tree.now) ≡ Ok (update_seen update)) }
    ensures refused { IfErr result (IsFaultOf (spec.static_in (view tree.now))) }
{
    let extension = text_in(alloc, UpdateField::Extension, tree)?;
    let set = text_in(alloc, UpdateField::RulesetId, tree)?;
    let disable = wholes_in(alloc, UpdateField::DisableRuleIds, tree)?;
    let enable = wholes_in(alloc, UpdateField::EnableRuleIds, tree)?;
    Ok(Update::Static {
        extension,
        set,
        disable,
        enable,
    })
}

#[tactic(auto, using(crate::proofs::Chains::stops_there), unfolding(line_spec::specs::Updates::uninstall_in))]
fn uninstall_in(alloc: Global, tree: &Value) -> Result<Update, UpdateFault>
    ensures read { IfOk result (λ update. spec.uninstall_in (view tree.now) ≡ Ok (update_seen update)) }
    ensures refused { IfErr result (IsFaultOf (spec.uninstall_in (view tree.now))) }
{
    let extension = text_in(alloc, UpdateField::Extension, tree)?;
    Ok(Update::Uninstall { extension })
}

// An extension is installed.
#[tactic(auto, unfolding(line_spec::specs::Updates::install_in))]
fn install_in<H: RegexHost>(
    alloc: Global,
    tree: &Value,
    host: &mut H,
) -> Result<Update, UpdateFault>
    ensures read { IfOk result (λ update. spec.install_in (view tree.now) ≡ Ok (update_seen update)) }
    ensures refused { IfErr result (MayRefuse (spec.install_in (view tree.now)) (λ refusal.
        Rose (H.faults host.old) (H.faults host.new) × StopsInInstall (view tree.now) refusal)) }
    ensures calm { OnOk result (H.faults host.new ≡ H.faults host.old) }
    ensures quiet { IfErr result (IsQuiet (H.faults host.old) (H.faults host.new)) }
    ensures later { H.faults host.old ≤ H.faults host.new }
{
    let name = new_name_in(alloc, tree)?;
    let sets = sets_in(alloc, tree, host)?;
    let access = access_in(alloc, tree)?;
    let extension = Extension::build(alloc, name, sets, access)?;
    Ok(Update::Install {
        extension: Arc::new(alloc, extension)?,
    })
}

// The name that the extension is given.
#[tactic(auto, unfolding(line_spec::specs::Updates::new_name_in))]
fn new_name_in(alloc: Global, tree: &Value) -> Result<Text, UpdateFault>
    ensures read { IfOk result (λ name. spec.new_name_in (view tree.now) ≡ Ok name) }
    ensures refused { IfErr result (IsFaultOf (spec.new_name_in (view tree.now))) }
{
    match tree
        .get(UpdateField::Extension.name())
        .and_then(Value::as_str)
    {
        Some(name) if is_extension_name(name.as_bytes()) => {
            Ok(Text::build(String::from_str(alloc, name)?))
        }
        _ => Err(UpdateFault::BadField(UpdateField::Extension)),
    }
}

fn is_extension_name(name: &[u8]) -> bool
    ensures { result ≡ is_extension_name name.now }
{
    !name.is_empty() && name.len() <= MAX_NAME && has_name_bytes(name)
}

fn has_name_bytes(name: &[u8]) -> bool
    ensures { result ≡ list_all is_name_byte name.now }
{
    name.iter().all(|byte| is_name_byte(*byte))
}

fn is_name_byte(byte: u8) -> bool
    ensures { result ≡ is_name_byte byte }
{
    byte.is_ascii_lowercase() || byte.is_ascii_digit() || byte == b'-' || byte == b'_'
}

// The match patterns of what the extension may touch, if their list is given.
#[tactic(auto, unfolding(line_spec::specs::Updates::access_in))]
fn access_in(alloc: Global, tree: &Value) -> Result<Option<Items<MatchPattern>>, UpdateFault>
    ensures read { IfOk result (λ access. spec.access_in (view tree.now) ≡ Ok access) }
    ensures refused { IfErr result (IsFaultOf (spec.access_in (view tree.now))) }
{
    let Some(list) = tree.get(UpdateField::HostPermissions.name()) else {
        return Ok(None);
    };
    match patterns_in(alloc, list)? {
        Some(patterns) => Ok(Some(patterns)),
        None => Err(UpdateFault::BadField(UpdateField::HostPermissions)),
    }
}
