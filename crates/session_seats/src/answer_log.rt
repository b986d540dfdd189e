// What a seat has answered in a round.
ghost use Rattle.std.specs.Prelude.{◌≡◌, ◌++◌, ◌∷◌, [], IfSome, OnOk, OnErr};
ghost use Rattle.std.specs.List.{Contains};
ghost use Rattle.session_seats.specs.Told.{said_of};

use crate::said::Said;
use crate::told::Told;
use dnr_base::NoMemory;
use std::alloc::Global;
use std::marker::Model;

// The memory of a longer text is let go: a session may last, and one of its rounds may once be long.
const KEPT_BYTES: usize = 262_144;

// Where an answer stands in the text, and what is told of it.
#[derive(Clone, Copy, Debug)]
struct Mark {
    place: usize,
    number: u32,
    failed: bool,
    start: usize,
    len: usize,
}

/// Answers in order. They stand in one text, which is read from one end to the other when they are put in the order of the
/// lines, and whose memory serves one round after another. A clause sees the answers.
#[derive(Drop)]
pub struct AnswerLog {
    text: String,
    marks: Vec<Mark>,
}

impl Model for AnswerLog {
    ghost use Rattle.std.specs.Prelude.{List, string_bytes};
    ghost use Rattle.session_seats.specs.Said as spec;
    ghost use Rattle.session_seats.specs.Log.{all_said, AreKept};

    ghost Value = { List spec.Said };

    ghost view = { λ l. all_said (string_bytes l.text) l.marks.items };

    ghost invariant = { λ l. AreKept (string_bytes l.text) l.marks.items };
}

impl AnswerLog {
    /// No answers.
    pub fn new(alloc: Global) -> AnswerLog
        ensures { result ≡ [] }
    {
        AnswerLog {
            text: String::new(alloc),
            marks: Vec::new(alloc),
        }
    }

    /// Lets the answers go, and keeps their memory, unless their text was long.
    pub fn clear(&mut self, alloc: Global)
        ensures { self.new ≡ [] }
    {
        self.marks.clear();
        if self.text.len() > KEPT_BYTES {
            self.text = String::new(alloc);
        } else {
            self.text.clear();
        }
    }

    /// Puts one more behind them: what is told of the request in the line of this number, at this place.
    ///
    /// `NoMemory`: no memory is left for it, and they are what they were.
    pub fn push(
        &mut self,
        alloc: Global,
        place: usize,
        line: u32,
        told: &Told,
    ) -> Result<(), NoMemory>
        ensures more { OnOk result (self.new ≡ self.old ++ said_of place line told.now ∷ []) }
        ensures kept { OnErr result (self.new ≡ self.old) }
    {
        // There is room for its mark before it is written, so that no text lies there unmarked.
        self.marks.reserve(1)?;
        let start = self.text.len();
        told.write(alloc, line, &mut self.text)?;
        self.marks.push_reserved(Mark {
            place,
            number: told.number(),
            failed: told.failed(),
            start,
            len: self.text.len() - start,
        });
        Ok(())
    }

    /// The one that stands behind so many.
    pub fn get(&self, turn: usize) -> Option<Said<'_>>
        ensures { IfSome result (Contains self.now) }
    {
        let mark = self.marks.get(turn)?;
        let (_, behind) = self.text.split_at_checked(mark.start)?;
        let (text, _) = behind.split_at_checked(mark.len)?;
        Some(Said {
            place: mark.place,
            number: mark.number,
            failed: mark.failed,
            text,
        })
    }
}
