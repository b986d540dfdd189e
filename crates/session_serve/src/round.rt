//! What is kept of a round until it ends.
ghost use Rattle.std.specs.Prelude.{◌≡◌, ◌<◌, ◌≤◌, ◌∷◌, ◌||◌, true, length, map, IfErr, OnOk, OnErr};
ghost use Rattle.std.specs.Io.KnownBytes.{Appends};
ghost use Rattle.dnr_base.specs.Faults.{HasCause, HasCauseOf};
ghost use Rattle.dnr_io.specs.Sink.{AppendsPart};
ghost use Rattle.dnr_spec.specs.Lines.{max_line};
ghost use Rattle.session_laws.specs.Turns.{NoneFell};
ghost use Rattle.session_spec.specs.Rounds.{is_full};
ghost use Rattle.session_serve.specs.Round.{syncs, with_one, nothing_kept, setting_with, Closes, LineServed, StopsAtLine};

use crate::answers::Session;
use crate::line_kind::LineKind;
use crate::stop::ServeStop;
use dnr_io::{Failed, Sink, write_all};
use regex_host::RegexHost;
use std::alloc::Global;
use std::marker::Model;

// The lines that a round has at most, and the sum of their bytes at which it ends.
const MAX_LINES: u32 = 1_024;

const FULL_BYTES: usize = 8_388_608;

/// The text that answers the lines of a round so far, and how much the round holds.
#[derive(Drop)]
pub struct Round {
    text: String,
    lines: u32,
    bytes: usize,
    asked: u32,
}

impl Model for Round {
    ghost use Rattle.std.specs.Prelude.{◌<◌, ◌≤◌, string_bytes};
    ghost use Rattle.session_serve.specs.Round.{Kept};

    ghost Value = { Kept };

    ghost view = { λ round. record {
      text = string_bytes round.text;
      held = record { lines = round.lines; bytes = round.bytes; asked = round.asked };
    } };

    ghost invariant = { λ round. (round.lines < 1024) × (round.bytes < 8388608) × (round.asked ≤ round.lines) };
}

impl Round {
    /// Before the first line.
    pub fn new(alloc: Global) -> Round
        ensures { result ≡ nothing_kept }
    {
        Round {
            text: String::new(alloc),
            lines: 0,
            bytes: 0,
            asked: 0,
        }
    }

    /// Answers a line, and writes the round where it ends with that line.
    pub fn serve_line<O: Sink, H: RegexHost>(
        &mut self,
        alloc: Global,
        session: &mut Session,
        number: u32,
        line: &[u8],
        out: &mut O,
        checker: &mut H,
        finders: &mut [H],
    ) -> Result<(), ServeStop>
        requires seats { 0 < length finders.old }
        requires short { length line.now ≤ max_line }
        ensures served { OnOk result (LineServed (setting_with session.old (length finders.old)) session.old.state session.new.state
            (H.faults checker.old ∷ map H.faults finders.old) (H.faults checker.new ∷ map H.faults finders.new)
            number line.now (O.taken out.old) (O.taken out.new) self.old self.new) }
        ensures stops { IfErr result (StopsAtLine (setting_with session.old (length finders.old)) session.old.state
            (H.faults checker.old ∷ map H.faults finders.old) (H.faults checker.new ∷ map H.faults finders.new)
            number line.now (O.taken out.old) (O.taken out.new) self.old) }
        ensures suffixes { session.new.suffixes ≡ session.old.suffixes }
        ensures updates { session.new.updates ≡ session.old.updates }
        ensures follows { session.new.follows ≡ session.old.follows }
        ensures seats { length finders.new ≡ length finders.old }
        ensures later { NoneFell (H.faults checker.old ∷ map H.faults finders.old)
            (H.faults checker.new ∷ map H.faults finders.new) }
        ensures cause { HasCauseOf ServeStop.WriteFault (O.faults out.old) (O.faults out.new) result }
    {
        let kind = session.answer(
            alloc,
            number,
            self.asked,
            line,
            checker,
            finders,
            &mut self.text,
        )?;
        match self.close(line.len(), kind, out) {
            Ok(()) => Ok(()),
            Err(Failed) => Err(ServeStop::WriteFault),
        }
    }

    // Takes in a line of this length and kind, whose answer stands in the text already, and writes the round where it ends.
    fn close<O: Sink>(&mut self, length: usize, kind: LineKind, out: &mut O) -> Result<(), Failed>
        requires { length ≤ max_line }
        ensures closed { OnOk result (Closes (syncs kind || is_full (with_one self.old.held length kind)) (O.taken out.old) (O.taken out.new)
            self.old.text (with_one self.old.held length kind) self.new) }
        ensures ends { OnErr result ((syncs kind || is_full (with_one self.old.held length kind)) ≡ true) }
        ensures part { OnErr result (AppendsPart (O.taken out.old) (O.taken out.new) self.old.text) }
        ensures cause { HasCause (O.faults out.old) (O.faults out.new) result }
    {
        let lines = self.lines + 1;
        let bytes = self.bytes + length;
        if kind != LineKind::Sync && lines < MAX_LINES && bytes < FULL_BYTES {
            self.lines = lines;
            self.bytes = bytes;
            self.asked += kind.asked();
            return Ok(());
        }
        self.write(out)?;
        self.text.clear();
        self.lines = 0;
        self.bytes = 0;
        self.asked = 0;
        Ok(())
    }

    /// Writes what is kept.
    pub fn write<O: Sink>(&self, out: &mut O) -> Result<(), Failed>
        ensures written { OnOk result (Appends (O.taken out.old) (O.taken out.new) self.now.text) }
        ensures part { OnErr result (AppendsPart (O.taken out.old) (O.taken out.new) self.now.text) }
        ensures cause { HasCause (O.faults out.old) (O.faults out.new) result }
    {
        write_all(out, self.text.as_bytes())
    }
}
