ghost use Rattle.std.specs.Prelude.{◌≡◌, ◌≤◌, ◌+◌, [], length, IsTrue, IsFalse, IfOk};
ghost use mathlib.Core.List.{IsPrefix};
ghost use Rattle.dnr_base.specs.Faults.{HasCauseOf};
ghost use Rattle.dnr_base.specs.Request.{max_frames};
ghost use Rattle.explain_spec.specs.Explanation.{explanation_of};
ghost use Rattle.index_spec.specs.Pairs.{pairs_of};
ghost use Rattle.rule_spec.specs.Scan.{scan};
ghost use Rattle.update_spec.specs.Entries.{replay};
ghost use Rattle.published.specs.Pass.{HasSeenNothing, IsBehind};
ghost use Rattle.published.specs.Refused.{EndsAfter};

use crate::look::{CopyReader, look, look_into, peek};
use crate::{Answer, Entry, Explained, Note, Pair, ReadRefusal};
use dnr_base::{Request, Steps};
use generation::DecideRefusal;
use history::{Log, agree};
use regex_host::RegexHost;
use std::alloc::Global;
use std::marker::Model;
use std::sync::ledger::Ledger;

/// A reader of what is published. A clause sees the entries that it has seen, those of the copy that it entered last,
/// and how often there was no copy to enter.
#[derive(Drop)]
pub struct ReaderPass<P: Pair> {
    // It is always there: a call takes it out and puts it back.
    reader: Option<CopyReader<P>>,
    log: Log<Entry>,
    missed: u64,
}

impl<P: Pair> Model for ReaderPass<P> {
    ghost use Rattle.std.specs.Prelude.{◌≡◌, IsSomeAnd};
    ghost use mathlib.Core.List.{IsPrefix};
    ghost use Rattle.left_right.specs.Sides as sides;
    ghost use Rattle.published.specs.Pass.{PassSeen, entered_of};

    ghost Value = { PassSeen };

    ghost view = { λ p. record {
      seen = p.log.list;
      entered = entered_of p.reader (λ r. sides.view r.place);
      missed = p.missed;
    } };

    ghost invariant = { λ p. (p.log.book ≡ P.book)
        × IsSomeAnd p.reader (λ r. IsPrefix p.log.list (sides.view r.place)) };
}

impl<P: Pair> ReaderPass<P> {
    // A pass that has seen nothing.
    pub(crate) fn new(reader: CopyReader<P>, log: Log<Entry>) -> ReaderPass<P>
        requires { log ≡ record { book = P.book; list = [] } }
        ensures { HasSeenNothing result }
    {
        ReaderPass {
            reader: Some(reader),
            log,
            missed: 0,
        }
    }

    /// What becomes of a request, which has at most 64 frames, by what is published when the pass enters it. It waits
    /// for nobody.
    ///
    /// # Errors
    ///
    /// Those of `ReadRefusal`. The pass may have seen more then, too.
    pub fn decide<H: RegexHost, L: Ledger>(
        &mut self,
        alloc: Global,
        request: &Request,
        host: &mut H,
        steps: &mut Steps<L>,
    ) -> Result<Answer, ReadRefusal>
        requires { length request.now.frames ≤ max_frames }
        ensures later { IsPrefix self.old.seen self.new.seen }
        ensures cause { HasCauseOf ReadRefusal.NotEntered self.old.missed self.new.missed result }
        ensures number { IfOk result (λ answer. answer.number ≡ length self.new.seen) }
        ensures verdict { IfOk result (λ answer. answer.verdict
            ≡ scan P.opening.suffixes (replay P.opening.state self.new.seen) request.now) }
        ensures ends { EndsAfter P.opening self.new.seen (H.faults host.old) (H.faults host.new) result }
        ensures bound { steps.new ≤ steps.old + pairs_of (replay P.opening.state self.new.seen) request.now }
    {
        let (reader, found) = look(self.reader.take().unwrap(), alloc, request, host, steps);
        self.reader = Some(reader);
        let Some((log, decided)) = found else {
            self.missed = self.missed.saturating_add(1);
            return Err(ReadRefusal::NotEntered);
        };
        let number = log.len();
        self.log = log;
        match decided {
            Ok(verdict) => Ok(Answer { number, verdict }),
            Err(DecideRefusal::HostFault(name)) => Err(ReadRefusal::HostFault(number, name)),
            Err(DecideRefusal::NoMemory) => Err(ReadRefusal::NoMemory),
        }
    }

    /// What becomes of a request, which has at most 64 frames, and why, by what is published when the pass enters it. It
    /// waits for nobody.
    ///
    /// # Errors
    ///
    /// Those of `decide`.
    pub fn explain<H: RegexHost, L: Ledger>(
        &mut self,
        alloc: Global,
        request: &Request,
        host: &mut H,
        steps: &mut Steps<L>,
    ) -> Result<Explained, ReadRefusal>
        requires { length request.now.frames ≤ max_frames }
        ensures later { IsPrefix self.old.seen self.new.seen }
        ensures cause { HasCauseOf ReadRefusal.NotEntered self.old.missed self.new.missed result }
        ensures number { IfOk result (λ answer. answer.number ≡ length self.new.seen) }
        ensures explanation { IfOk result (λ answer. answer.explanation
            ≡ explanation_of P.opening.suffixes (replay P.opening.state self.new.seen) request.now) }
        ensures ends { EndsAfter P.opening self.new.seen (H.faults host.old) (H.faults host.new) result }
        ensures bound { steps.new ≤ steps.old + pairs_of (replay P.opening.state self.new.seen) request.now }
    {
        let (reader, found) = look_into(self.reader.take().unwrap(), alloc, request, host, steps);
        self.reader = Some(reader);
        let Some((log, explained)) = found else {
            self.missed = self.missed.saturating_add(1);
            return Err(ReadRefusal::NotEntered);
        };
        let number = log.len();
        self.log = log;
        match explained {
            Ok(explanation) => Ok(Explained {
                number,
                explanation,
            }),
            Err(DecideRefusal::HostFault(name)) => Err(ReadRefusal::HostFault(number, name)),
            Err(DecideRefusal::NoMemory) => Err(ReadRefusal::NoMemory),
        }
    }

    /// Takes in what a note tells. It waits for nobody, and takes no memory.
    ///
    /// False: there was no copy to enter, or one that the note is ahead of. Nothing is learnt then.
    pub fn learn(&mut self, note: Note<P>) -> bool
        ensures seen { IsTrue result → IsPrefix self.old.seen self.new.seen }
        ensures told { IsTrue result → IsPrefix note self.new.seen }
        ensures none { IsFalse result → self.new.seen ≡ self.old.seen }
        ensures cause { IsFalse result → IsBehind self.old self.new note }
        ensures later { self.old.missed ≤ self.new.missed }
    {
        let (reader, found) = peek(self.reader.take().unwrap());
        self.reader = Some(reader);
        let Some(log) = found else {
            self.missed = self.missed.saturating_add(1);
            return false;
        };
        if !log.covers(note.log()) {
            return false;
        }
        self.log = log;
        true
    }

    /// A note of what this pass has seen.
    pub fn note(&self) -> Note<P>
        ensures { result ≡ self.now.seen }
    {
        Note::new(self.log.again())
    }

    /// Of what a pass has seen and a note the shorter begins the longer. This is known of all of them, and the
    /// function does nothing.
    pub fn compare(&self, note: &Note<P>)
        ensures before { length self.now.seen ≤ length note.now → IsPrefix self.now.seen note.now }
        ensures after { length note.now ≤ length self.now.seen → IsPrefix note.now self.now.seen }
    {
        agree(&self.log, note.log());
        agree(note.log(), &self.log);
    }
}
