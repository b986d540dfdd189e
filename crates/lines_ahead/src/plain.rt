// Script lines that are told by their bytes alone, before they are read: those that ask for nothing but a request, and
// those that are no sync.
ghost use Rattle.std.specs.Prelude.{ℕ, ◌↔◌, ◌≢◌, Ok, IsTrue, codes};
ghost use Rattle.line_spec.specs.Line.{command_of, sync};
ghost use Rattle.lines_ahead.specs.Plain.{HasNoString, IsPlain, IsRequestAtMost};

use memchr::memchr;
use memchr::memmem::{self, Finder};
use std::marker::Model;

/// A search that tells plain lines, made once for many of them. A clause sees what it searches for.
#[derive(Drop)]
pub struct PlainSearch {
    finder: Finder<'static>,
    // The key of a request's URL, as JSON writes it.
    urls: Finder<'static>,
}

impl Model for PlainSearch {
    ghost use Rattle.std.specs.Prelude.{◌≡◌, ℕ, List, codes};

    ghost Value = { List ℕ };

    ghost view = { λ s. s.finder };

    ghost invariant = { λ s. s.finder ≡ codes "cmd" };
}

impl PlainSearch {
    /// A search for the key `cmd`.
    pub fn new() -> PlainSearch {
        PlainSearch {
            finder: Finder::new(b"cmd"),
            urls: Finder::new(b"\"url\""),
        }
    }

    /// Whether the bytes of a line hold neither `cmd` nor a backslash, so that it has no key `cmd`: a JSON string without
    /// an escape stands in its text as it is. Whatever its number, such a line is blank, a request or at fault. It is no
    /// update, no batch, no sync and no explain.
    ///
    /// A line that isn't plain may still be a request.
    pub fn is_plain(&self, bytes: &[u8]) -> bool
        ensures told { IsTrue result ↔ IsPlain bytes.now }
        ensures request_at_most { IsTrue result → (number : ℕ) → IsRequestAtMost (command_of number bytes.now) }
    {
        self.finder.find(bytes).is_none() && memchr(b'\\', bytes).is_none()
    }

    /// Whether the bytes of a line name a URL that begins as nearly all do that rules see: with `http` or `ws`. What a line
    /// asks for doesn't depend on it.
    pub fn may_be_seen(&self, bytes: &[u8]) -> bool {
        let Some(place) = self.urls.find(bytes) else {
            return false;
        };
        let Some((_, named)) = bytes.split_at_checked(place) else {
            return false;
        };
        // with the space that some writers of JSON leave, and without it
        named.starts_with(b"\"url\":\"http")
            || named.starts_with(b"\"url\": \"http")
            || named.starts_with(b"\"url\":\"ws")
            || named.starts_with(b"\"url\": \"ws")
    }
}

/// Whether the bytes of a line hold neither the string `"sync"` nor a backslash. Whatever its number, such a line is no
/// sync: what a JSON string without an escape says stands in its text as it is, between two quotes.
pub fn lacks_sync(bytes: &[u8]) -> bool
    ensures told { IsTrue result ↔ HasNoString (codes "sync") bytes.now }
    ensures no_sync { IsTrue result → (number : ℕ) → command_of number bytes.now ≢ Ok sync }
{
    memmem::find(bytes, b"\"sync\"").is_none() && memchr(b'\\', bytes).is_none()
}
