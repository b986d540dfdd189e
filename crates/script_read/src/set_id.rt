// The ids of rulesets.
ghost use Rattle.std.specs.Prelude.{◌≡◌, IfOk, IfErr, Ok};
ghost use Rattle.serde_json.specs.View.{view};
ghost use Rattle.load_spec.specs.Manifest.{is_set_id, is_new_id, has_text};
ghost use Rattle.line_spec.specs.Updates as spec;
ghost use Rattle.script_read.specs.Faults.{IsFaultOf};
ghost use Rattle.script_read.specs.Sets.{ids_of};

use crate::new_sets::NewSets;
use dnr_base::Text;
use line_spec::{UpdateFault, UpdateField};
use serde_json::Value;
use std::alloc::Global;

// The most bytes of an id.
const MAX_ID: usize = 256;

// The id of a ruleset, which is none of the earlier ones'.
#[tactic(auto, unfolding(line_spec::specs::Updates::set_id_in))]
pub(crate) fn set_id_in(alloc: Global, earlier: &NewSets, tree: &Value) -> Result<Text, UpdateFault>
    ensures read { IfOk result (λ id. spec.set_id_in (ids_of earlier.now) (view tree.now) ≡ Ok id) }
    ensures refused { IfErr result (IsFaultOf (spec.set_id_in (ids_of earlier.now) (view tree.now))) }
{
    match tree.get("id").and_then(Value::as_str) {
        Some(id) if is_new_id(earlier, id) => Ok(Text::build(String::from_str(alloc, id)?)),
        _ => Err(UpdateFault::BadField(UpdateField::Rulesets)),
    }
}

fn is_new_id(earlier: &NewSets, id: &str) -> bool
    ensures { result ≡ is_new_id (ids_of earlier.now) id.now }
{
    is_set_id(id.as_bytes()) && !earlier.has_id(id)
}

fn is_set_id(id: &[u8]) -> bool
    ensures { result ≡ is_set_id id.now }
{
    !id.is_empty() && id.len() <= MAX_ID && id[0] != b'_'
}
