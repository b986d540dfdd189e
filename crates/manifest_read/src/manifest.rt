// What a manifest names: rulesets, and the match patterns of what the extension may touch.
ghost use Rattle.std.specs.Prelude.{◌≡◌, [], Ok, Some, IfOk, IfErr, is_some};
ghost use Rattle.serde_json.specs.Find.{as_object, as_array};
ghost use Rattle.serde_json.specs.View.{view, items_view};
ghost use Rattle.json_spec.specs.Json.{tree_of};
ghost use Rattle.load_spec.specs.Manifest as spec;
ghost use Rattle.manifest_read.specs.Reading.{IsFaultOf, IsFaultOfBytes};

use crate::fault::Fault;
use crate::resource::{Resource, resource_in, take_id};
use access_read::patterns_in;
use dnr_base::Items;
use json_spec::read_tree;
use load_spec::ManifestPath;
use match_patterns::MatchPattern;
use serde_json::Value;
use std::alloc::Global;
use std::collections::BTreeSet;
use std::marker::Model;

// A manifest, of which a clause sees that of `load_spec`.
#[derive(Drop)]
pub(crate) struct Manifest {
    pub resources: Vec<Resource>,
    pub access: Option<Items<MatchPattern>>,
}

impl Model for Manifest {
    ghost use Rattle.load_spec.specs.Manifest as spec;

    ghost Value = { spec.Manifest };

    ghost view = { λ m. record { resources = m.resources.items; access = m.access } };
}

// Reads the bytes of a manifest. It is tested whole.
#[tactic(auto, unfolding(load_spec::specs::Manifest::manifest_of))]
pub(crate) fn read_bytes(alloc: Global, bytes: &[u8]) -> Result<Manifest, Fault>
    ensures read { IfOk result (λ manifest. spec.manifest_of bytes.now ≡ Ok manifest) }
    ensures refused { IfErr result (IsFaultOfBytes bytes.now) }
{
    match read_tree(alloc, bytes)? {
        Some(tree) => manifest_in(alloc, &tree),
        None => Err(Fault::BadJson),
    }
}

#[tactic(auto, unfolding(load_spec::specs::Manifest::manifest_in))]
fn manifest_in(alloc: Global, tree: &Value) -> Result<Manifest, Fault>
    ensures read { IfOk result (λ manifest. spec.manifest_in (view tree.now) ≡ Ok manifest) }
    ensures refused { IfErr result (IsFaultOf (spec.manifest_in (view tree.now))) }
{
    if tree.as_object().is_none() {
        return Err(Fault::At(ManifestPath::Manifest));
    }
    let resources = rulesets_in(alloc, tree)?;
    let access = access_in(alloc, tree)?;
    Ok(Manifest { resources, access })
}

// The match patterns, if their list is given.
#[tactic(auto, unfolding(load_spec::specs::Manifest::access_in))]
fn access_in(alloc: Global, tree: &Value) -> Result<Option<Items<MatchPattern>>, Fault>
    ensures read { IfOk result (λ access. spec.access_in (view tree.now) ≡ Ok access) }
    ensures refused { IfErr result (IsFaultOf (spec.access_in (view tree.now))) }
{
    let Some(list) = tree.get(ManifestPath::HostPermissions.name()) else {
        return Ok(None);
    };
    match patterns_in(alloc, list)? {
        Some(patterns) => Ok(Some(patterns)),
        None => Err(Fault::At(ManifestPath::HostPermissions)),
    }
}

// The rulesets that the manifest names, if it speaks of requests.
fn rulesets_in(alloc: Global, tree: &Value) -> Result<Vec<Resource>, Fault>
    ensures read { IfOk result (λ resources. spec.rulesets_in (view tree.now) ≡ Ok resources.items) }
    ensures refused { IfErr result (IsFaultOf (spec.rulesets_in (view tree.now))) }
{
    match tree.get(ManifestPath::DeclarativeNetRequest.name()) {
        None => Ok(Vec::new(alloc)),
        Some(requests) => requests_in(alloc, requests),
    }
}

// Those of `declarative_net_request`.
fn requests_in(alloc: Global, requests: &Value) -> Result<Vec<Resource>, Fault>
    ensures read { IfOk result (λ resources. spec.requests_given (Some (view requests.now)) ≡ Ok resources.items) }
    ensures refused { IfErr result (IsFaultOf (spec.requests_given (Some (view requests.now)))) }
{
    if requests.as_object().is_none() {
        return Err(Fault::At(ManifestPath::DeclarativeNetRequest));
    }
    match requests.get(ManifestPath::RuleResources.name()) {
        None => Ok(Vec::new(alloc)),
        Some(list) => list_in(alloc, list),
    }
}

// Those of `rule_resources`, each of which is an object before the first is read.
fn list_in(alloc: Global, list: &Value) -> Result<Vec<Resource>, Fault>
    ensures read { IfOk result (λ resources. spec.resources_given (Some (view list.now)) ≡ Ok resources.items) }
    ensures refused { IfErr result (IsFaultOf (spec.resources_given (Some (view list.now)))) }
{
    match list.as_array() {
        Some(values) if are_objects(values) => each_resource(alloc, values),
        _ => Err(Fault::At(ManifestPath::RuleResources)),
    }
}

fn are_objects(values: &[Value]) -> bool
    ensures { result ≡ spec.are_objects (items_view values.now) }
{
    values.iter().all(|value| is_object(value))
}

fn is_object(value: &Value) -> bool
    ensures { result ≡ is_some (as_object (view value.now)) }
{
    value.as_object().is_some()
}

// The ids that were read stand in a set, so that a long list costs one look into it for each resource.
#[tactic(auto, using(crate::proofs::Resources::resources_begin, crate::proofs::Ids::none_taken, crate::proofs::Resources::resources_end))]
fn each_resource(alloc: Global, values: &[Value]) -> Result<Vec<Resource>, Fault>
    ensures read { IfOk result (λ resources. spec.resources_in [] (items_view values.now) ≡ Ok resources.items) }
    ensures refused { IfErr result (IsFaultOf (spec.resources_in [] (items_view values.now))) }
{
    let mut taken = BTreeSet::new(alloc);
    let mut resources = Vec::new(alloc);
    for value in values {
        let resource = resource_in(alloc, &taken, value)?;
        take_id(alloc, &mut taken, resource.id().as_str())?;
        resources.push(resource)?;
    }
    Ok(resources)
}
