ghost use Rattle.std.specs.Prelude.{◌≡◌, IfOk};
ghost use Rattle.follow_spec.specs.Trace as spec;

use dnr_base::{Copied, NoMemory, Request, View};
use std::alloc::Global;

// The same request for another URL: it keeps its initiator, its method and its headers.
pub(crate) fn sent_to(alloc: Global, view: View, request: &Request) -> Result<Request, NoMemory>
    ensures { IfOk result (λ sent. sent ≡ spec.sent_to view request.now) }
{
    Ok(Request {
        line: request.line,
        view,
        initiator: Copied::copied(&request.initiator, alloc)?,
        kind: request.kind,
        method: request.method,
        tab: request.tab,
        frames: request.frames.copy(alloc)?,
        request_headers: Copied::copied(&request.request_headers, alloc)?,
        response_headers: Copied::copied(&request.response_headers, alloc)?,
    })
}
