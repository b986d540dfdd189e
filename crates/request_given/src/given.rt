/// A frame, as it is given: what has no URL or no initiator says so, and the bytes that stand there say nothing.
#[repr(C)]
#[derive(Clone, Copy)]
pub struct GivenFrame<'a> {
    /// The URL of its document.
    pub url: &'a [u8],
    /// The URL or the origin of the page that asked for the document.
    pub initiator: &'a [u8],
    /// The place of its method in Chrome's list, from 0.
    pub method: u32,
    /// Whether it has a URL which rules see.
    pub has_url: bool,
    /// Whether a page asked for it.
    pub has_initiator: bool,
}

/// A header, as it is given.
#[repr(C)]
#[derive(Clone, Copy)]
pub struct GivenHeader<'a> {
    /// Its name, in letters of any case.
    pub name: &'a [u8],
    /// Its value.
    pub value: &'a [u8],
}

/// A request, as it is given.
#[repr(C)]
#[derive(Clone, Copy)]
pub struct GivenRequest<'a> {
    /// The URL that is asked for.
    pub url: &'a [u8],
    /// The URL or the origin of the page that asks.
    pub initiator: &'a [u8],
    /// The frames in which it is asked for, the outermost first.
    pub frames: &'a [GivenFrame<'a>],
    /// The headers that are sent.
    pub request_headers: &'a [GivenHeader<'a>],
    /// The headers that are received.
    pub response_headers: &'a [GivenHeader<'a>],
    /// The place of its type in Chrome's list, from 0.
    pub kind: u32,
    /// The place of its method in Chrome's list, from 0.
    pub method: u32,
    /// The tab in which it is asked for.
    pub tab: u32,
    /// Whether a page asks for it.
    pub has_initiator: bool,
    /// Whether it is asked for in a tab.
    pub has_tab: bool,
    /// Whether it carries headers that are sent.
    pub has_request_headers: bool,
    /// Whether it carries headers that are received.
    pub has_response_headers: bool,
}
