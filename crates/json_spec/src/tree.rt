ghost use Rattle.std.specs.Prelude.{◌≡◌, IfOk, option_map};
ghost use Rattle.serde_json.specs.View.{view};
ghost use Rattle.json_spec.specs.Json.{tree_of};

use dnr_base::NoMemory;
use serde_json::Value;
use std::alloc::Global;

/// The tree of a text. `None`: it is no JSON text (RFC 8259).
///
/// `NoMemory`: memory ran out.
pub fn read_tree(alloc: Global, bytes: &[u8]) -> Result<Option<Value>, NoMemory>
    ensures { IfOk result (λ tree. option_map view tree ≡ tree_of bytes.now) }
{
    match Value::from_slice(alloc, bytes) {
        Ok(tree) => Ok(Some(tree)),
        Err(error) => {
            if error.is_memory() {
                Err(NoMemory)
            } else {
                Ok(None)
            }
        }
    }
}
