ghost use Rattle.std.specs.Prelude.{◌≡◌, ◌↔◌, ◌<◌, ◌≤◌, ◌+◌, ◌∷◌, ◌++◌, [], length, None, IsTrue, IsFalse, IsSome, IsNone, IfSome, IfOk, IfErr, OnOk, OnErr};
ghost use Rattle.ruleset_store.specs.Seen.{IsBatchRefusal, IsRefusalOf, update_seen, updates_seen};
ghost use Rattle.update_spec.specs.Entries as entries;
ghost use Rattle.update_spec.specs.Entries.{replay};
ghost use Rattle.update_spec.specs.Judge.{judge_update};
ghost use Rattle.published.specs.Ahead.{with_unplaced};
ghost use Rattle.published.specs.Shared.{basis_after};

use crate::copies::{Copies, hand_on, next_copy, next_copy_together, publish_in};
use crate::copy::Shown;
use crate::{Entry, Note, Pair, ReaderPass};
use dnr_base::NoMemory;
use generation::Generation;
use history::{Head, Log};
use ruleset_store::{BatchRefusal, Refusal, Update};
use std::alloc::{AllocError, Global};
use std::marker::Model;
use std::sync::Wait;

/// The one writer of a pair. A clause sees the accepted entries, the staged one, if any, and how often there was no
/// place for a pass. It is not `Drop`: `close` ends it.
pub struct Writer<P: Pair> {
    copies: Copies<P>,
    head: Head<Entry>,
    kept: Option<Shown>,
    unplaced: u32,
    alloc: Global,
}

impl<P: Pair> Model for Writer<P> {
    ghost use Rattle.std.specs.Prelude.{◌≡◌, drop};
    ghost use Rattle.published.specs.Ahead.{Listed, IsOneAhead, beyond, coming};
    ghost use Rattle.published.specs.Shared.{IsCopy};

    ghost Value = { Listed };

    ghost view = { λ w. record {
      list = w.copies.desk.shown.value.list;
      staged = beyond w.copies.desk.shown.value (coming w.kept (drop w.copies.behind w.copies.log.items));
      unplaced = w.unplaced;
    } };

    ghost invariant = { λ w. (w.head ≡ P.book) × IsCopy P.book P.opening w.copies.desk.shown.value
        × IsOneAhead w.copies.desk.shown.value (coming w.kept (drop w.copies.behind w.copies.log.items)) };
}

impl<P: Pair> Writer<P> {
    // A writer that has published this copy, with room for so many readers.
    pub(crate) fn new(
        alloc: Global,
        head: Head<Entry>,
        first: Shown,
        spare: Shown,
        seats: u32,
    ) -> Result<Writer<P>, AllocError>
        requires seats { 0 < seats }
        requires head { head ≡ P.book }
        requires first { first ≡ record { basis = P.opening; book = P.book; list = [] } }
        requires spare { spare ≡ first }
        ensures { IfOk result (λ writer. writer ≡ record { list = []; staged = []; unplaced = 0 }) }
    {
        let copies = Copies::new(alloc, first, spare, seats as usize)?;
        Ok(Writer {
            copies,
            head,
            kept: None,
            unplaced: 0,
            alloc,
        })
    }

    // A pass that has seen nothing, or one more that there was no place for.
    pub(crate) fn pass(&mut self, empty: &Log<Entry>) -> Option<ReaderPass<P>>
        requires empty { empty.now ≡ record { book = P.book; list = [] } }
        requires few { self.old.unplaced < 8 }
        ensures fresh { IfSome result (λ pass. pass.seen ≡ []) }
        ensures placed { IsSome result → self.new ≡ self.old }
        ensures unplaced { IsNone result → self.new ≡ with_unplaced self.old (self.old.unplaced + 1) }
    {
        let Ok(reader) = self.copies.factory().reader() else {
            self.unplaced += 1;
            return None;
        };
        Some(ReaderPass::new(reader, empty.again()))
    }

    /// The count of the accepted updates and batches.
    pub fn number(&self) -> u32
        ensures { result ≡ length self.now.list }
    {
        self.copies.published().log().len()
    }

    /// The generation in force.
    pub fn generation(&self) -> &Generation
        ensures { result.now ≡ basis_after P.opening self.now.list }
    {
        self.copies.published().generation()
    }

    /// Whether an update or a batch is staged.
    pub fn staged(&self) -> bool
        ensures value { IsTrue result ↔ (0 < length self.now.staged) }
        ensures idle { IsFalse result → self.now.staged ≡ [] }
    {
        self.kept.is_some() || self.copies.has_pending_operations()
    }

    /// A note of what is published.
    pub fn note(&self) -> Note<P>
        ensures { result ≡ self.now.list }
    {
        Note::new(self.copies.published().log().again())
    }

    /// Makes the generation after an update, and stages it. What is published stays as it is.
    ///
    /// # Errors
    ///
    /// The first refusal of the update after the accepted ones, or `NoMemory`. Nothing is staged then.
    pub fn prepare(&mut self, update: &Update) -> Result<(), Refusal>
        requires { self.old.staged ≡ [] }
        ensures list { self.new.list ≡ self.old.list }
        ensures judged { OnOk result (judge_update (replay P.opening.state self.old.list) (update_seen update.now)
            ≡ None) }
        ensures staged { OnOk result (self.new.staged ≡ entries.one (update_seen update.now) ∷ []) }
        ensures refused { IfErr result (IsRefusalOf (judge_update (replay P.opening.state self.old.list)
            (update_seen update.now))) }
        ensures nothing { OnErr result (self.new.staged ≡ []) }
    {
        let next = next_copy(self.alloc, self.copies.published(), &self.head, update)?;
        self.kept = Some(next);
        Ok(())
    }

    /// Makes the generation after updates that are made together, of which there is one at least and 256 at most, and
    /// stages it. What is published stays as it is.
    ///
    /// # Errors
    ///
    /// The first update that is refused after the accepted ones and those before it in the batch, and why; or
    /// `NoMemory`. Nothing is staged then.
    pub fn prepare_batch(&mut self, updates: &[Update]) -> Result<(), BatchRefusal>
        requires some { 0 < length updates.now }
        requires few { length updates.now ≤ 256 }
        requires idle { self.old.staged ≡ [] }
        ensures list { self.new.list ≡ self.old.list }
        ensures judged { OnOk result (entries.judge (replay P.opening.state self.old.list)
            (entries.batch (updates_seen updates.now)) ≡ None) }
        ensures staged { OnOk result (self.new.staged ≡ entries.batch (updates_seen updates.now) ∷ []) }
        ensures refused { IfErr result (IsBatchRefusal (entries.judge (replay P.opening.state self.old.list)
            (entries.batch (updates_seen updates.now)))) }
        ensures nothing { OnErr result (self.new.staged ≡ []) }
    {
        let next = next_copy_together(self.alloc, self.copies.published(), &self.head, updates)?;
        self.kept = Some(next);
        Ok(())
    }

    /// Publishes what is staged, whole. It waits until no pass reads the copy that goes.
    ///
    /// # Errors
    ///
    /// `NoMemory`: memory ran out. Nothing is published, and what was staged still is.
    pub fn swap<R: Wait>(&mut self, rt: &R) -> Result<(), NoMemory>
        requires { 0 < length self.old.staged }
        ensures published { OnOk result (self.new.list ≡ self.old.list ++ self.old.staged) }
        ensures nothing { OnOk result (self.new.staged ≡ []) }
        ensures refused { OnErr result (self.new ≡ self.old) }
    {
        hand_on(&mut self.copies, &mut self.kept)?;
        publish_in(rt, &mut self.copies)?;
        Ok(())
    }

    /// Ends the writer. It waits until no pass reads what it published.
    pub fn close<R: Wait>(self, rt: &R) {
        let Writer {
            copies,
            head: _,
            kept: _,
            unplaced: _,
            alloc: _,
        } = self;
        drop(copies.take(rt));
    }
}
