// A condition whose fields are looked up.
ghost use Rattle.std.specs.Prelude.{◌≡◌, option_map};
ghost use Rattle.std.specs.BTreeMap.{keys};
ghost use Rattle.serde_json.specs.Find.{get};
ghost use Rattle.serde_json.specs.View.{view};
ghost use Rattle.rule_spec.specs.RulePath.{key_of};
ghost use Rattle.rule_fields.specs.Lengths as spec;
ghost use Rattle.rule_fields.specs.Lengths.{LacksUntold};

use rule_spec::RulePath;
use serde_json::{Map, Value};

// Lengths of keys are told apart below this.
const LENGTHS: usize = 32;

// Most rules have three or four of twenty fields, and the lengths of their keys tell of nearly all others at once that
// they are not there.
#[derive(Drop)]
pub(crate) struct Condition<'a> {
    pub(crate) value: &'a Value,
    // Whether a key has so many bytes, modulo their number.
    lengths: [bool; LENGTHS],
    ghost told: { LacksUntold lengths (view value.now) },
}

impl<'a> Condition<'a> {
    pub(crate) fn new(value: &'a Value) -> Condition<'a>
        ensures { result.value ≡ value.entry }
    {
        let lengths = lengths_in(value);
        Condition { value, lengths }
    }

    // The value of a field, if it is there.
    pub(crate) fn get(&self, field: RulePath) -> Option<&'a Value>
        ensures { option_map (λ value. view value.now) result ≡ get (key_of field) (view self.now.value.now) }
    {
        let key = field.key();
        if self.lengths[key.len() % LENGTHS] {
            self.value.get(key)
        } else {
            None
        }
    }
}

// The lengths of the keys of a value, which has none where it is no object.
#[tactic(auto, using(crate::proofs::Lengths::lacks_untold))]
fn lengths_in(value: &Value) -> [bool; LENGTHS]
    ensures { LacksUntold result (view value.now) }
{
    match value.as_object() {
        Some(members) => lengths_of(members),
        None => [false; LENGTHS],
    }
}

fn lengths_of(members: &Map<String, Value>) -> [bool; LENGTHS]
    ensures { result ≡ spec.lengths_of (keys members.now) }
{
    let mut lengths = [false; LENGTHS];
    for key in members.keys() {
        lengths[key.len() % LENGTHS] = true;
    }
    lengths
}
