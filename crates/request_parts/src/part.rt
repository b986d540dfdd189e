// The parts of a request as JSON.
ghost use Rattle.std.specs.Prelude.{◌≡◌};
ghost use Rattle.request_parts.specs.Parts.{wanted_at, item_of, member_of, line_member, frame_member, accepts_at};

use json_fields::{Shape, Wanted};
use serde_json::Value;

// The most frames of a request.
const MAX_FRAMES: usize = 64;

// The most headers of one list.
const MAX_HEADERS: usize = 512;

// A part of a request. The values that are read there are its form.
#[derive(Clone, Copy, Debug, PartialEq, Eq, Drop)]
pub(crate) enum RequestPart {
    Line,
    Frames,
    Frame,
    Headers,
    // A pair of its name and its value.
    Header,
    TextOrNull,
    Text,
}

impl Shape for RequestPart {
    ghost wants = { wanted_at };

    ghost item_shape = { item_of };

    ghost member_shape = { member_of };

    ghost accepts = { accepts_at };

    fn wanted(self) -> Wanted {
        match self {
            RequestPart::Line | RequestPart::Frame => Wanted::Object,
            RequestPart::Frames => Wanted::Few(MAX_FRAMES),
            RequestPart::Headers => Wanted::Few(MAX_HEADERS),
            RequestPart::Header => Wanted::Few(2),
            RequestPart::TextOrNull => Wanted::TextOrNull,
            RequestPart::Text => Wanted::Text,
        }
    }

    fn of_items(self) -> RequestPart {
        match self {
            RequestPart::Frames => RequestPart::Frame,
            RequestPart::Headers => RequestPart::Header,
            _ => RequestPart::Text,
        }
    }

    fn of_member(self, name: &str) -> Option<RequestPart> {
        match self {
            RequestPart::Line => line_member(name),
            RequestPart::Frame => frame_member(name),
            _ => None,
        }
    }

    fn accepts(self, _kept: &Value) -> bool {
        true
    }
}

fn line_member(name: &str) -> Option<RequestPart>
    ensures { result ≡ line_member name.now }
{
    match name {
        "frames" => Some(RequestPart::Frames),
        "requestHeaders" => Some(RequestPart::Headers),
        "responseHeaders" => Some(RequestPart::Headers),
        _ => None,
    }
}

fn frame_member(name: &str) -> Option<RequestPart>
    ensures { result ≡ frame_member name.now }
{
    match name {
        "url" => Some(RequestPart::TextOrNull),
        "initiator" => Some(RequestPart::TextOrNull),
        "method" => Some(RequestPart::Text),
        _ => None,
    }
}
