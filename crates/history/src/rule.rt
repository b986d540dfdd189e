use logbook::{Gain, Plain, Play, Rule};
use std::marker::PhantomData;

// The rule of a history: its word is its length.
pub struct Growing;

impl<E> Rule<E, u64> for Growing {
    ghost use Rattle.std.specs.Prelude.{[]};
    ghost use base.Fml.{ftrue};
    ghost use Rattle.history.specs.History.{IsCounted};

    ghost holds = { λ cells log. IsCounted cells log };

    ghost first = { [] };

    ghost hinted = { λ number log. Unit {0} };

    ghost shows = { λ log. [] };

    ghost keeps = { λ names log. ftrue };

    ghost moves = { λ ask before after answer. Unit {0} };
}

// What adds an entry gains nothing else by it.
pub struct Nothing;

impl<E> Gain<E, u64> for Nothing {
    ghost use base.Fml.{ftrue};

    ghost after = { λ names about answer. ftrue };
}

/// What entry a value stands for, where one is added for it.
pub trait EntryOf<X, E> {
    ghost entry: { X → E };
}

/// Each value is an entry itself.
pub struct Itself;

impl<E> EntryOf<E, E> for Itself {
    ghost entry = { λ entry. entry };
}

// The one step of a history: it adds the entry that M says.
pub struct Add<M> {
    by: PhantomData<M>,
}

impl<E, M> Play<E, u64> for Add<M> {
    ghost use Rattle.history.specs.History.{Adds};

    ghost then = { Adds };
}

impl<X, E, M: EntryOf<X, E>> Plain<X, E, u64> for Add<M> {
    ghost use Rattle.std.specs.Prelude.{None};

    ghost ask = { M.entry };

    ghost state = { λ value. None };
}
