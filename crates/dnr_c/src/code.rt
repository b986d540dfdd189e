ghost use Rattle.std.specs.Prelude.{◌≡◌};

// The codes that calls answer, as the header names them, and what else a call tells.
pub(crate) const DONE: u32 = 0;

pub(crate) const NO_MEMORY: u32 = 1;

pub(crate) const IS_CLOSED: u32 = 2;

pub(crate) const IS_OPENED: u32 = 3;

pub(crate) const NO_ROOM: u32 = 4;

pub(crate) const USAGE: u32 = 5;

pub(crate) const REFUSED: u32 = 6;

pub(crate) const NO_FILE: u32 = 7;

pub(crate) const TOO_LONG: u32 = 8;

pub(crate) const NO_TEXT: u32 = 9;

pub(crate) const HOST_FAULT: u32 = 10;

pub(crate) const BAD_REQUEST: u32 = 11;

pub(crate) const BAD_URL: u32 = 12;

pub(crate) const BAD_TYPE: u32 = 13;

pub(crate) const BAD_INITIATOR: u32 = 14;

pub(crate) const BAD_METHOD: u32 = 15;

pub(crate) const BAD_TAB: u32 = 16;

pub(crate) const BAD_FRAMES: u32 = 17;

pub(crate) const BAD_REQUEST_HEADERS: u32 = 18;

pub(crate) const BAD_RESPONSE_HEADERS: u32 = 19;

/// A code, and the length of the text that goes with it.
#[derive(Clone, Copy)]
pub(crate) struct Told {
    pub code: u32,
    pub length: usize,
}

// The code alone.
pub(crate) fn alone(code: u32) -> Told
    ensures { result ≡ record { code = code; length = 0 } }
{
    Told { code, length: 0 }
}
