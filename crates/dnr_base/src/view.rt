ghost use Rattle.std.specs.Prelude.{◌≡◌, IfOk};
ghost use Rattle.dnr_base.specs.View.{View as Seen, IsView, text_of, host_of};

use crate::{Copied, NoMemory, Scheme, Span, Text};
use std::alloc::Global;
use std::marker::Model;

/// A URL as rules see it: its serialization (URL Standard, section 4.5), where its fragment begins, its
/// scheme, and where its host stands. Places are in bytes from 0.
///
/// The serialization is ASCII. The host is not empty, and has only lower-case letters, digits, `-`, `.` and
/// `_`, or is an IPv6 address between brackets. It stands before the fragment, behind `/` or `@`, and `:`,
/// `/`, `?` or the end follows it. That the view is the one of a URL is said where it is read from a text.
#[derive(Debug, Drop)]
pub struct View {
    full: Text,
    cut: usize,
    scheme: Scheme,
    host: Span,
}

impl Model for View {
    ghost use Rattle.dnr_base.specs.View.{View, IsView};

    ghost Value = { View };

    ghost view = { λ v. record { full = v.full; cut = v.cut; scheme = v.scheme; host = v.host } };

    ghost invariant = { λ v. IsView (record { full = v.full; cut = v.cut; scheme = v.scheme; host = v.host }) };
}

impl View {
    /// A view of these parts: the serialization, where its fragment begins (its length, if it has none), its
    /// scheme, and where its host stands. It takes no memory.
    pub fn build(full: Text, cut: usize, scheme: Scheme, host: Span) -> View
        requires { IsView (record { full = full; cut = cut; scheme = scheme; host = host }) }
        ensures { result ≡ record { full = full; cut = cut; scheme = scheme; host = host } }
    {
        View {
            full,
            cut,
            scheme,
            host,
        }
    }

    /// The whole serialization, with the fragment.
    pub fn full(&self) -> &str
        ensures value { result.now ≡ self.now.full }
        ensures kept { IsView self.now }
    {
        self.full.as_str()
    }

    /// The serialization without the fragment and its `#`, which is what `urlFilter` and `regexFilter` of
    /// Chrome's reference are matched against.
    pub fn text(&self) -> &str
        ensures value { result.now ≡ text_of self.now }
        ensures kept { IsView self.now }
    {
        &self.full.as_str()[..self.cut]
    }

    /// Which of the known schemes it has.
    pub fn scheme(&self) -> Scheme
        ensures { result ≡ self.now.scheme }
    {
        self.scheme
    }

    /// The host, without user information and port. An IPv6 host includes its brackets.
    pub fn host(&self) -> &str
        ensures value { result.now ≡ host_of self.now }
        ensures kept { IsView self.now }
    {
        &self.full.as_str()[self.host.start..self.host.end]
    }

    /// Where the host stands in the text, and in the serialization.
    pub fn host_span(&self) -> Span
        ensures value { result ≡ self.now.host }
        ensures kept { IsView self.now }
    {
        self.host
    }

    /// An equal view.
    ///
    /// `NoMemory`: no memory is left for its serialization.
    pub fn copy(&self, alloc: Global) -> Result<View, NoMemory>
        ensures { IfOk result (λ copy. copy ≡ self.now) }
    {
        Ok(View {
            full: self.full.copy(alloc)?,
            cut: self.cut,
            scheme: self.scheme,
            host: self.host,
        })
    }
}

impl Copied for View {
    fn copied(&self, alloc: Global) -> Result<View, NoMemory> {
        self.copy(alloc)
    }
}
