ghost use Rattle.std.specs.Prelude.{◌≡◌, Ok, OnOk, IfErr, option_map};
ghost use Rattle.std.specs.List.{list_all};
ghost use Rattle.action_read.specs.Seen.{data_in};
ghost use Rattle.dnr_base.specs.KindSet.{kinds_of};
ghost use Rattle.rule_spec.specs.IsRule.{is_frame_kind};
ghost use Rattle.json_spec.specs.MayRefuse.{IsRefused};
ghost use Rattle.json_spec.specs.RuleAction as spec;
ghost use Rattle.json_spec.specs.ReadRule as rule;
ghost use Rattle.json_spec.specs.ReadRule.{frames_in};
ghost use Rattle.rule_fields.specs.Seen.{fields_seen};

use crate::conditions::is_no_kind;
use dnr_base::{Kind, KindSet};
use rule_fields::Fields;
use rule_spec::RuleRefusal;
use serde_json::Value;

// Refuses `allowAllRequests` where the rule gives no resource types, or others than frames.
#[tactic(auto, unfolding(json_spec::specs::ReadRule::frames_in))]
pub(crate) fn test_frames(action: Option<&Value>, fields: &Fields<'_>) -> Result<(), RuleRefusal>
    ensures ok { OnOk result (frames_in (data_in action.entry) (fields_seen fields.now) ≡ Ok tt) }
    ensures refused { IfErr result
        (IsRefused (frames_in (data_in action.entry) (fields_seen fields.now))) }
{
    if is_allow_all(action) && !gives_frames(fields.kinds) {
        return Err(RuleRefusal::AllowAllTypes);
    }
    Ok(())
}

fn is_allow_all(action: Option<&Value>) -> bool
    ensures { result ≡ rule.is_allow_all (spec.type_of (data_in action.entry)) }
{
    match action
        .and_then(|action| action.get("type"))
        .and_then(Value::as_str)
    {
        Some(name) => name == "allowAllRequests",
        None => false,
    }
}

fn gives_frames(kinds: Option<KindSet>) -> bool
    ensures { result ≡ rule.gives_frames (option_map kinds_of kinds) }
{
    match kinds {
        Some(kinds) => are_frames(kinds),
        None => false,
    }
}

#[tactic(auto, using(crate::proofs::TypeSets::frames_alone))]
fn are_frames(kinds: KindSet) -> bool
    ensures { result ≡ list_all is_frame_kind (kinds_of kinds) }
{
    let mut others = kinds;
    others.remove(Kind::MainFrame);
    others.remove(Kind::SubFrame);
    is_no_kind(others)
}
