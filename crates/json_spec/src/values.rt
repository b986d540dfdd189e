ghost use Rattle.std.specs.Prelude.{◌≡◌};
ghost use Rattle.serde_json.specs.View.{view};
ghost use Rattle.json_spec.specs.RuleFields as form;

use dnr_base::{Kind, Method};
use serde_json::Value;

/// The resource type of a text that names one.
pub fn as_kind(value: &Value) -> Option<Kind>
    ensures { result ≡ form.as_kind (view value.now) }
{
    Kind::named(value.as_str()?)
}

/// The request method of a text that names one.
pub fn as_method(value: &Value) -> Option<Method>
    ensures { result ≡ form.as_method (view value.now) }
{
    Method::named(value.as_str()?)
}

/// The tab of a whole number from -1, which stands for none, to 2,147,483,647.
pub fn as_tab(value: &Value) -> Option<i32>
    ensures { result ≡ form.as_tab (view value.now) }
{
    let tab = value.as_i64()?;
    if (-1..=2_147_483_647).contains(&tab) {
        Some(tab as i32)
    } else {
        None
    }
}
