// The headers of a request.
ghost use Rattle.std.specs.Prelude.{◌≡◌, Ok, IfOk, IfErr, IfSome, option_map};
ghost use Rattle.serde_json.specs.View.{view, items_view};
ghost use Rattle.dnr_base.specs.Request.{IsHeaderList};
ghost use Rattle.line_spec.specs.IsFault.{IsFaultOf};
ghost use Rattle.line_spec.specs.RequestLine as spec;
ghost use Rattle.json_spec.specs.RuleFields.{each};

use dnr_base::{Header, Items, NoMemory};
use line_spec::{CommandPath, LineFault};
use request_texts::header_of;
use serde_json::Value;
use std::alloc::Global;

// The most headers of one list.
const MAX_HEADERS: usize = 512;

// The headers of the list at this key, if there is one.
pub(crate) fn headers_in(
    alloc: Global,
    path: CommandPath,
    headers: Option<&Value>,
) -> Result<Option<Items<Header>>, LineFault>
    ensures read { IfOk result (λ read.
        spec.headers_given path (option_map (λ v. view v.now) headers.entry) ≡ Ok read) }
    ensures listed { IfOk result (λ read. IfSome read IsHeaderList) }
    ensures refused { IfErr result
        (IsFaultOf (spec.headers_given path (option_map (λ v. view v.now) headers.entry))) }
{
    let Some(list) = headers else {
        return Ok(None);
    };
    match as_headers(alloc, list)? {
        Some(headers) => Ok(Some(headers)),
        None => Err(LineFault::BadCommand(path)),
    }
}

#[tactic(auto, using(crate::proofs::Limits::count_is, crate::proofs::Limits::headers_listed))]
fn as_headers(alloc: Global, list: &Value) -> Result<Option<Items<Header>>, NoMemory>
    ensures read { IfOk result (λ headers. headers ≡ spec.as_headers (view list.now)) }
    ensures listed { IfOk result (λ headers. IfSome headers IsHeaderList) }
{
    match list.as_array() {
        Some(values) if values.len() <= MAX_HEADERS => each_header(alloc, values.as_slice()),
        _ => Ok(None),
    }
}

#[tactic(auto, using(json_spec::proofs::Each::read_begins, json_spec::proofs::Each::read_goes, json_spec::proofs::Each::read_stops, json_spec::proofs::Each::read_ends))]
fn each_header(alloc: Global, values: &[Value]) -> Result<Option<Items<Header>>, NoMemory>
    ensures { IfOk result (λ headers. headers ≡ each spec.as_header (items_view values.now)) }
{
    let mut headers = Vec::with_capacity(alloc, values.len())?;
    for value in values {
        let Some(header) = as_header(alloc, value)? else {
            return Ok(None);
        };
        headers.push(header)?;
    }
    Ok(Some(Items::build(headers)))
}

// A header from a pair of its name and its value.
#[tactic(auto, using(crate::proofs::Pairs::too_few, crate::proofs::Pairs::too_many), unfolding(line_spec::specs::RequestLine::as_header))]
fn as_header(alloc: Global, value: &Value) -> Result<Option<Header>, NoMemory>
    ensures { IfOk result (λ header. header ≡ spec.as_header (view value.now)) }
{
    let Some(values) = value.as_array() else {
        return Ok(None);
    };
    let [name, value] = values.as_slice() else {
        return Ok(None);
    };
    header_of(alloc, name.as_str(), value.as_str())
}
