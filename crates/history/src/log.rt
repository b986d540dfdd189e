ghost use Rattle.std.specs.Prelude.{◌≡◌, ◌≤◌, ◌<◌, ◌++◌, ◌∷◌, [], length, IsTrue, IsFalse, IfSome};
ghost use mathlib.Core.List.{IsPrefix};

use crate::Head;
use crate::rule::{Add, EntryOf, Growing, Nothing};
use logbook::{Offer, Seen};
use std::marker::Model;

/// A beginning of a history. A clause sees which history it is of, and its entries; the program has their
/// count.
#[derive(Drop)]
pub struct Log<E> {
    count: u32,
    seen: Seen<E, u64, Growing>,
}

impl<E> Model for Log<E> {
    ghost use Rattle.std.specs.Prelude.{◌≡◌, length};
    ghost use Rattle.history.specs.History.{Known};

    ghost Value = { Known E };

    ghost view = { λ l. record { book = l.seen.book; list = l.seen.log } };

    ghost invariant = { λ l. l.count ≡ length l.seen.log };
}

impl<E> Log<E> {
    // What was seen of a history without entries.
    pub(crate) fn beginning(seen: Seen<E, u64, Growing>) -> Log<E>
        requires { seen.log ≡ [] }
        ensures { result ≡ record { book = seen.book; list = [] } }
    {
        Log { count: 0, seen }
    }

    /// How many entries it has.
    pub fn len(&self) -> u32
        ensures { result ≡ length self.now.list }
    {
        self.count
    }

    /// An equal log.
    pub fn again(&self) -> Log<E>
        ensures { result ≡ self.now }
    {
        Log {
            count: self.count,
            seen: self.seen.again(),
        }
    }

    /// Whether it has at least as many entries as another log of the history, which then begins it.
    pub fn covers(&self, other: &Log<E>) -> bool
        requires { other.now.book ≡ self.now.book }
        ensures begins { IsTrue result → IsPrefix other.now.list self.now.list }
        ensures longer { IsFalse result → length self.now.list < length other.now.list }
    {
        agree(other, self);
        other.count <= self.count
    }

    /// Adds the entry that a value stands for to the history, and gives the log that has it as its last one.
    ///
    /// `None`: the history has gone on without this log, or has 4,294,967,295 entries.
    pub fn with<X, M: EntryOf<X, E>>(&self, head: &Head<E>, value: &X) -> Option<Log<E>>
        requires { head.now ≡ self.now.book }
        ensures { IfSome result (λ log. log
            ≡ record { book = self.now.book; list = self.now.list ++ M.entry value.now ∷ [] }) }
    {
        if self.count == u32::MAX {
            return None;
        }
        let mut seen = self.seen.again();
        let mut offer: Offer<E, u64, Growing, Nothing> = seen.plain::<Nothing, X, Add<M>>(value);
        let mut pen = seen.no_pen();
        let count = u64::from(self.count);
        let found = head
            .word
            .compare_exchange::<Add<M>, Nothing>(count, count + 1, &mut seen, &mut offer, &mut pen);
        if found != count {
            return None;
        }
        Some(Log {
            count: self.count + 1,
            seen,
        })
    }
}

/// Of two logs of one history the shorter begins the longer. This is known of all of them, and the function
/// does nothing.
pub fn agree<E>(one: &Log<E>, other: &Log<E>)
    requires { other.now.book ≡ one.now.book }
    ensures { length one.now.list ≤ length other.now.list → IsPrefix one.now.list other.now.list }
{
    let mut both = one.seen.again();
    both.learn(&other.seen);
}
