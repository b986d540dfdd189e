ghost use Rattle.std.specs.Prelude.{◌≡◌, ◌<◌, ◌≤◌, ◌+◌, [], length, IfOk, All, vec_len, vec_capacity};
ghost use Rattle.std.specs.Arc.{arc_value};
ghost use Rattle.published.specs.Pass.{HasSeenNothing};

use crate::copy::Shown;
use crate::{Entry, ReaderPass, Writer};
use dnr_base::NoMemory;
use generation::Generation;
use history::{Log, Opened};
use std::alloc::Global;
use std::marker::Brand;
use std::sync::Arc;

/// What a pair of a writer and passes is made of once: the history of its entries. `Opening::new` takes no memory.
pub type Opening = Opened<Entry>;

/// Names a pair: its history, and what its first generation decides by. It exists in proofs alone; each call
/// that makes a pair picks it.
pub trait Pair {
    ghost use Rattle.logbook.specs.Pages.{Book};
    ghost use Rattle.generation.specs.Basis.{Basis};

    ghost book: { Book };

    ghost opening: { Basis };
}

impl Pair for Brand {
    ghost use Rattle.std.specs.Prelude.{[]};

    ghost book = { record { number = 0; log_name = 0; cells_name = 0 } };

    ghost opening = { record { suffixes = []; state = record { extensions = []; count = 0 } } };
}

/// A writer and passes of one pair, which open with this generation, after no update. A pass is asked for of each seat,
/// of which there are at most 8, and there is one but for those that the writer found no place for.
///
/// # Errors
///
/// `NoMemory`: memory ran out.
pub fn publish_pair<P: Pair>(
    alloc: Global,
    opened: Opening,
    first: Generation,
    seats: u32,
) -> Result<(Writer<P>, Vec<ReaderPass<P>>), NoMemory>
    requires seats { (0 < seats) × (seats ≤ 8) }
    requires book { opened ≡ P.book }
    requires opening { first ≡ P.opening }
    ensures writer { IfOk result (λ pair. (pair.0.list ≡ []) × (pair.0.staged ≡ [])) }
    ensures passes { IfOk result (λ pair. All HasSeenNothing pair.1.items) }
    ensures seats { IfOk result (λ pair. length pair.1.items + pair.0.unplaced ≡ seats) }
{
    let mut passes = Vec::with_capacity(alloc, seats as usize)?;
    let (head, log) = opened.parts();
    let empty = log.again();
    let shown = Shown::new(Arc::new(alloc, first).map_err(|_| NoMemory)?, log);
    let spare = shown.again()?;
    let mut writer = Writer::new(alloc, head, shown, spare, seats)?;
    for _ in 0..seats {
        add_pass(&mut writer, &empty, &mut passes);
    }
    Ok((writer, passes))
}

// One pass more, or one more that there was no place for. There is memory for it.
fn add_pass<P: Pair>(writer: &mut Writer<P>, empty: &Log<Entry>, passes: &mut Vec<ReaderPass<P>>)
    requires empty { empty.now ≡ record { book = P.book; list = [] } }
    requires few { writer.old.unplaced < 8 }
    requires memory { vec_len passes.old < vec_capacity passes.old }
    requires fresh { All HasSeenNothing passes.old.items }
    ensures count { length passes.new.items + writer.new.unplaced ≡ length passes.old.items + writer.old.unplaced + 1 }
    ensures writer { (writer.new.list ≡ writer.old.list) × (writer.new.staged ≡ writer.old.staged) }
    ensures memory { vec_capacity passes.old ≤ vec_capacity passes.new }
    ensures one { vec_len passes.new ≤ vec_len passes.old + 1 }
    ensures fresh { All HasSeenNothing passes.new.items }
{
    if let Some(pass) = writer.pass(empty) {
        let _ = passes.push(pass);
    }
}
