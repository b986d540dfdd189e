// URLs, and who asks by one.
ghost use Rattle.std.specs.Prelude.{◌≡◌, Ok, IfOk, IfErr};
ghost use Rattle.line_spec.specs.IsFault.{IsFaultOf};
ghost use Rattle.line_spec.specs.RequestLine as spec;

use dnr_base::{Text, View};
use dnr_spec::ViewRefusal;
use line_spec::{CommandPath, LineFault};
use std::alloc::Global;
use url_view::parse;

/// The URL of a text, which stands in this field.
///
/// # Errors
///
/// - `BadUrl`: the text is no URL that is decided.
/// - `NoMemory`: memory ran out.
pub fn view_at(alloc: Global, field: CommandPath, text: &str) -> Result<View, LineFault>
    ensures read { IfOk result (λ url. spec.view_at field text.now ≡ Ok url) }
    ensures refused { IfErr result (IsFaultOf (spec.view_at field text.now)) }
{
    match parse(alloc, text) {
        Ok(url) => Ok(url),
        Err(ViewRefusal::NoMemory) => Err(LineFault::NoMemory),
        Err(why) => Err(LineFault::BadUrl(field, why)),
    }
}

/// The host of who asks by this text, which stands in this field. Nobody asks by `null`.
///
/// # Errors
///
/// Those of `view_at`.
#[tactic(auto, using(crate::proofs::Stops::stops_there))]
pub fn asking_host(alloc: Global, field: CommandPath, text: &str) -> Result<Option<Text>, LineFault>
    ensures read { IfOk result (λ host. spec.asking_host field text.now ≡ Ok host) }
    ensures refused { IfErr result (IsFaultOf (spec.asking_host field text.now)) }
{
    if text == "null" {
        return Ok(None);
    }
    let url = view_at(alloc, field, text)?;
    let host = String::from_str(alloc, url.host())?;
    Ok(Some(Text::build(host)))
}
