// A ruleset as a manifest names it.
ghost use Rattle.std.specs.Prelude.{◌≡◌, Ok, IfOk, IfErr, OnOk};
ghost use Rattle.serde_json.specs.View.{view};
ghost use Rattle.json_spec.specs.Json.{text_at};
ghost use Rattle.load_spec.specs.ManifestPath.{path_name};
ghost use Rattle.load_spec.specs.Manifest as spec;
ghost use Rattle.manifest_read.specs.Reading.{ids_in, AddsId, IsFaultOf};

use crate::fault::Fault;
use crate::path::is_inside;
use dnr_base::{NoMemory, Text};
use load_spec::ManifestPath;
use serde_json::Value;
use std::alloc::Global;
use std::collections::BTreeSet;
use std::marker::Model;

// The most bytes of an id.
const MAX_ID: usize = 256;

// Its id, whether it is enabled, and the file of its rules.
#[derive(Debug, Drop)]
pub(crate) struct Resource {
    id: Text,
    enabled: bool,
    path: Text,
}

impl Model for Resource {
    ghost use Rattle.load_spec.specs.Manifest as spec;

    ghost Value = { spec.Resource };

    ghost view = { λ r. record { id = r.id; enabled = r.enabled; path = r.path } };
}

impl Resource {
    pub(crate) fn id(&self) -> &Text
        ensures { result.now ≡ self.now.id }
    {
        &self.id
    }

    pub(crate) fn is_enabled(&self) -> bool
        ensures { result ≡ self.now.enabled }
    {
        self.enabled
    }

    pub(crate) fn path(&self) -> &str
        ensures { result.now ≡ self.now.path }
    {
        self.path.as_str()
    }
}

// Reads a resource whose id is not one of those that are taken.
#[tactic(auto, using(crate::proofs::Stops::stops_there), unfolding(load_spec::specs::Manifest::resource_in))]
pub(crate) fn resource_in(
    alloc: Global,
    taken: &BTreeSet<String>,
    tree: &Value,
) -> Result<Resource, Fault>
    ensures read { IfOk result (λ resource. spec.resource_in (ids_in taken.now) (view tree.now) ≡ Ok resource) }
    ensures refused { IfErr result (IsFaultOf (spec.resource_in (ids_in taken.now) (view tree.now))) }
{
    let id = id_in(alloc, taken, tree)?;
    let enabled = enabled_in(tree)?;
    let path = path_in(alloc, tree)?;
    Ok(Resource { id, enabled, path })
}

#[tactic(auto, unfolding(load_spec::specs::Manifest::id_in))]
fn id_in(alloc: Global, taken: &BTreeSet<String>, tree: &Value) -> Result<Text, Fault>
    ensures read { IfOk result (λ id. spec.id_in (ids_in taken.now) (view tree.now) ≡ Ok id) }
    ensures refused { IfErr result (IsFaultOf (spec.id_in (ids_in taken.now) (view tree.now))) }
{
    match tree.get(ManifestPath::Id.name()).and_then(Value::as_str) {
        Some(id) if is_new_id(taken, id) => Ok(Text::build(String::from_str(alloc, id)?)),
        _ => Err(Fault::At(ManifestPath::Id)),
    }
}

fn is_new_id(taken: &BTreeSet<String>, id: &str) -> bool
    ensures { result ≡ spec.is_new_id (ids_in taken.now) id.now }
{
    is_set_id(id.as_bytes()) && !has_id(taken, id)
}

fn is_set_id(id: &[u8]) -> bool
    ensures { result ≡ spec.is_set_id id.now }
{
    !id.is_empty() && id.len() <= MAX_ID && id[0] != b'_'
}

// Whether the id is taken.
fn has_id(taken: &BTreeSet<String>, id: &str) -> bool
    ensures { result ≡ spec.has_text (ids_in taken.now) id.now }
{
    taken.contains(id)
}

// Puts the id in beside the others.
pub(crate) fn take_id(alloc: Global, taken: &mut BTreeSet<String>, id: &str) -> Result<(), NoMemory>
    ensures { OnOk result (AddsId taken.old taken.new id.now) }
{
    let id = String::from_str(alloc, id)?;
    taken.insert(id)?;
    Ok(())
}

#[tactic(auto, unfolding(load_spec::specs::Manifest::enabled_in))]
fn enabled_in(tree: &Value) -> Result<bool, Fault>
    ensures read { IfOk result (λ enabled. spec.enabled_in (view tree.now) ≡ Ok enabled) }
    ensures refused { IfErr result (IsFaultOf (spec.enabled_in (view tree.now))) }
{
    match tree
        .get(ManifestPath::Enabled.name())
        .and_then(Value::as_bool)
    {
        Some(enabled) => Ok(enabled),
        None => Err(Fault::At(ManifestPath::Enabled)),
    }
}

#[tactic(auto, unfolding(load_spec::specs::Manifest::path_in))]
fn path_in(alloc: Global, tree: &Value) -> Result<Text, Fault>
    ensures read { IfOk result (λ path. spec.path_in (view tree.now) ≡ Ok path) }
    ensures refused { IfErr result (IsFaultOf (spec.path_in (view tree.now))) }
{
    match tree.get(ManifestPath::Path.name()).and_then(Value::as_str) {
        Some(path) if is_inside(path) => Ok(Text::build(String::from_str(alloc, path)?)),
        _ => Err(Fault::At(ManifestPath::Path)),
    }
}
