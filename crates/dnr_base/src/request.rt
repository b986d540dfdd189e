ghost use Rattle.std.specs.Prelude.{◌≡◌, IfOk, option_map};
ghost use Rattle.dnr_base.specs.Request.{own_part, frame_part};

use crate::{Copied, Frame, Header, Items, Kind, Method, NoMemory, Part, Text, View};
use std::alloc::Global;

/// A request, as rules decide it.
#[derive(Debug, Drop)]
pub struct Request {
    /// The number of the line that asks for it, from 1.
    pub line: u32,
    /// The URL that is asked for.
    pub view: View,
    /// The host of the page that asks, if any does.
    pub initiator: Option<Text>,
    /// What it is asked for: Chrome's `ResourceType`.
    pub kind: Kind,
    /// The method by which it is asked for.
    pub method: Method,
    /// The tab in which it is asked for, and -1 for none.
    pub tab: i32,
    /// The frames in which it is asked for, the outermost first.
    pub frames: Items<Frame>,
    /// The headers that are sent. `None`: it carries no such list.
    pub request_headers: Option<Items<Header>>,
    /// The headers that are received. `None`: it carries no such list.
    pub response_headers: Option<Items<Header>>,
}

impl Request {
    /// What the request says of itself.
    pub fn own_part(&self) -> Part<'_>
        ensures { result ≡ own_part self.now }
    {
        Part {
            view: &self.view,
            initiator: self.initiator.as_ref(),
            kind: self.kind,
            method: self.method,
            tab: self.tab,
            response_headers: self.response_headers.as_ref(),
        }
    }

    /// What the frame at a place, from 0, says of its own document, which was asked for in the request's
    /// tab: as `main_frame` at place 0, and as `sub_frame` elsewhere. `None`: there is no such frame, or
    /// it has no URL.
    pub fn frame_part(&self, place: usize) -> Option<Part<'_>>
        ensures { result ≡ frame_part self.now place }
    {
        let frame = self.frames.as_slice().get(place)?;
        let view = frame.view.as_ref()?;
        let kind = if place == 0 {
            Kind::MainFrame
        } else {
            Kind::SubFrame
        };
        Some(Part {
            view,
            initiator: frame.initiator.as_ref(),
            kind,
            method: frame.method,
            tab: self.tab,
            response_headers: None,
        })
    }

    /// An equal request.
    ///
    /// `NoMemory`: no memory is left for what it holds.
    pub fn copy(&self, alloc: Global) -> Result<Request, NoMemory>
        ensures { IfOk result (λ copy. copy ≡ self.now) }
    {
        Ok(Request {
            line: self.line,
            view: self.view.copy(alloc)?,
            initiator: Copied::copied(&self.initiator, alloc)?,
            kind: self.kind,
            method: self.method,
            tab: self.tab,
            frames: self.frames.copy(alloc)?,
            request_headers: Copied::copied(&self.request_headers, alloc)?,
            response_headers: Copied::copied(&self.response_headers, alloc)?,
        })
    }
}

impl Copied for Request {
    fn copied(&self, alloc: Global) -> Result<Request, NoMemory> {
        self.copy(alloc)
    }
}
