ghost use Rattle.std.specs.Prelude.{◌≡◌, codes, Ok, OnOk, IfOk, IfErr, option_map};
ghost use Rattle.serde_json.specs.View.{view};
ghost use Rattle.json_spec.specs.RuleAction as spec;
ghost use Rattle.json_spec.specs.RuleAction.{action_in};
ghost use Rattle.dnr_rules.specs.Seen.{action_seen};
ghost use Rattle.json_spec.specs.MayRefuse.{IsRefused};
ghost use Rattle.action_read.specs.Seen.{data_in};

use crate::headers::read_changes;
use crate::redirects::read_redirect;
use dnr_rules::Action;
use rule_spec::RuleRefusal;
use serde_json::Value;
use std::alloc::Global;

/// Reads the action of a rule: Chrome's reference of declarativeNetRequest, `RuleAction`. `groups` is the
/// count of groups of the rule's `regexFilter`, if it has one.
///
/// # Errors
///
/// - `BadAction`: the action is absent, or has no known `type`.
/// - `BadRedirect`: a redirect is absent, has not exactly one of its four fields, or the field breaks its form.
/// - `BadTransform`: a field of a transform breaks its form, or `query` stands beside `queryTransform`.
/// - `BadHeader`: no header change is listed, a list of them has another shape, or a change is refused.
/// - `NoMemory`: memory ran out.
#[tactic(auto, unfolding(json_spec::specs::RuleAction::action_in))]
pub fn read_action(
    alloc: Global,
    action: Option<&Value>,
    groups: Option<u32>,
) -> Result<Action, RuleRefusal>
    ensures ok { IfOk result (λ read. action_in groups (data_in action.entry) ≡ Ok (action_seen read)) }
    ensures refused { IfErr result (IsRefused (action_in groups (data_in action.entry))) }
{
    let Some(action) = action else {
        return Err(RuleRefusal::BadAction);
    };
    match action.get("type").and_then(Value::as_str) {
        Some(name) => read_named(alloc, action, groups, name),
        None => Err(RuleRefusal::BadAction),
    }
}

fn read_named(
    alloc: Global,
    action: &Value,
    groups: Option<u32>,
    name: &str,
) -> Result<Action, RuleRefusal>
    ensures ok { IfOk result (λ read.
        spec.action_named groups (view action.now) name.now ≡ Ok (action_seen read)) }
    ensures refused { IfErr result
        (IsRefused (spec.action_named groups (view action.now) name.now)) }
{
    match name {
        "block" => Ok(Action::Block),
        "redirect" => {
            let redirect = read_redirect(alloc, action, groups)?;
            Ok(Action::Redirect(Box::new(alloc, redirect)?))
        }
        "allow" => Ok(Action::Allow),
        "upgradeScheme" => Ok(Action::UpgradeScheme),
        "modifyHeaders" => read_changes(alloc, action),
        "allowAllRequests" => Ok(Action::AllowAllRequests),
        _ => Err(RuleRefusal::BadAction),
    }
}
