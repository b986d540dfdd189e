ghost use Rattle.std.specs.Prelude.{◌≡◌, []};

use crate::Log;
use crate::rule::Growing;
use logbook::{Seen, Start, Word};
use std::marker::Model;

/// The right to add to a history, which no other value has. A clause sees which history it is.
#[derive(Drop)]
pub struct Head<E> {
    pub(crate) word: Word<E, u64, Growing>,
}

impl<E> Model for Head<E> {
    ghost use Rattle.std.specs.Prelude.{◌≡◌};
    ghost use Rattle.logbook.specs.Pages.{Book};
    ghost use Rattle.history.specs.History.{head_of};

    ghost Value = { Book };

    ghost view = { λ h. h.word.book };

    ghost invariant = { λ h. h.word ≡ head_of h.word.book };
}

/// A history that has just begun. What it gives is given once, so a history has one head. A clause sees which
/// history it is.
#[derive(Drop)]
pub struct Opened<E> {
    head: Head<E>,
    log: Log<E>,
}

impl<E> Model for Opened<E> {
    ghost use Rattle.std.specs.Prelude.{◌≡◌, []};
    ghost use Rattle.logbook.specs.Pages.{Book};

    ghost Value = { Book };

    ghost view = { λ o. o.log.book };

    ghost invariant = { λ o. (o.head ≡ o.log.book) × (o.log.list ≡ []) };
}

impl<E> Opened<E> {
    /// A history of its own, without entries.
    pub fn new() -> Opened<E> {
        let (seen, mut first, _) = Seen::open(Start::alone(), 0, 0);
        Opened {
            head: Head {
                word: Word::tracked(0, &mut first),
            },
            log: Log::beginning(seen),
        }
    }

    /// The head, and the log without entries.
    pub fn parts(self) -> (Head<E>, Log<E>)
        ensures head { result.0 ≡ self }
        ensures log { result.1 ≡ record { book = self; list = [] } }
    {
        let Opened { head, log } = self;
        (head, log)
    }
}
