use crate::copy::Shown;
use crate::{Entry, Pair};
use crossbeam_utils::rule::{Outcome, Protocol};
use std::collections::LinkedList;
use std::marker::PhantomData;

// What a reader has seen: its entries. No value of the type is made.
pub type Entries = LinkedList<Entry>;

// What each reader has seen begins what is published.
pub struct Begins<P: Pair> {
    of: PhantomData<P>,
}

impl<P: Pair> Protocol<Shown, Entries> for Begins<P> {
    ghost use Rattle.std.specs.Prelude.{[]};
    ghost use Rattle.published.specs.Shared.{Keeps};

    ghost holds = { Keeps P.book P.opening };

    ghost first = { [] };
}

// A publish, or a reader's entering.
pub struct GoesOn<P: Pair> {
    of: PhantomData<P>,
}

impl<P: Pair> Outcome<Shown, Entries> for GoesOn<P> {
    ghost use Rattle.published.specs.Shared.{Sees};

    ghost then = { Sees P.book P.opening };
}
