ghost use Rattle.std.specs.Prelude.{◌≡◌, ◌<◌, length, IsTrue, IsFalse};
ghost use mathlib.Core.List.{IsPrefix};

use crate::{Entry, Pair};
use history::Log;
use std::marker::{Model, PhantomData};

/// What was published or seen, as it is told to a pass of the pair. A clause sees the accepted entries.
#[derive(Drop)]
pub struct Note<P: Pair> {
    log: Log<Entry>,
    of: PhantomData<P>,
}

impl<P: Pair> Model for Note<P> {
    ghost use Rattle.std.specs.Prelude.{◌≡◌, List};
    ghost use Rattle.update_spec.specs.Entries as entries;

    ghost Value = { List entries.Entry };

    ghost view = { λ n. n.log.list };

    ghost invariant = { λ n. n.log.book ≡ P.book };
}

impl<P: Pair> Note<P> {
    pub(crate) fn new(log: Log<Entry>) -> Note<P>
        requires { log.book ≡ P.book }
        ensures { result ≡ log.list }
    {
        Note {
            log,
            of: PhantomData,
        }
    }

    /// An equal note.
    pub fn again(&self) -> Note<P>
        ensures { result ≡ self.now }
    {
        Note::new(self.log.again())
    }

    /// The count of the updates and batches that it tells of.
    pub fn number(&self) -> u32
        ensures { result ≡ length self.now }
    {
        self.log.len()
    }

    /// Whether it tells of no more than another note of the pair, which then goes on from it.
    pub fn begins(&self, other: &Note<P>) -> bool
        ensures begins { IsTrue result → IsPrefix self.now other.now }
        ensures longer { IsFalse result → length other.now < length self.now }
    {
        other.log.covers(&self.log)
    }

    pub(crate) fn log(&self) -> &Log<Entry>
        ensures { result.now ≡ record { book = P.book; list = self.now } }
    {
        &self.log
    }
}
