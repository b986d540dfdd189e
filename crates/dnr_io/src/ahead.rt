ghost use Rattle.std.specs.Prelude.{◌≡◌, ◌<◌, ◌≤◌, ◌+◌, List, ℕ, [], length, drop, is_some, true};
ghost use Rattle.std.specs.Prelude.{slice_range, vec_len, IfOk, OnErr, OnOk, IsErrOf, IsTrue};
ghost use Rattle.std.specs.Prelude.{IsFalse};
ghost use Rattle.std.specs.Io.KnownBytes.{prepend_known, IsAtEnd};
ghost use Rattle.dnr_spec.specs.Lines.{max_line};
ghost use Rattle.dnr_io.specs.Ahead.{IsFirstPiece, OverflowsLine, MovesPiece};
ghost use Rattle.dnr_base.specs.Faults.{HasCause};

use crate::lines::MAX_LINE;
use crate::{Failed, LineRefusal, Source};
use memchr::memchr;
use std::alloc::{AllocError, Global};
use std::marker::Model;

// How many bytes are asked of a source at a time: about those of two rounds of a session, so that lines of the next stand
// ready while one is served.
const CAPACITY: usize = 262_144;

/// The bytes that were read from a source and not yet given.
#[derive(Drop)]
pub struct Ahead {
    buffer: Vec<u8>,
    start: usize,
    end: usize,
}

impl Model for Ahead {
    ghost Value = { List ℕ };

    ghost view = { λ ahead. slice_range ahead.buffer.items ahead.start ahead.end };

    ghost invariant = { λ ahead. (ahead.start ≤ ahead.end) × (ahead.end ≤ vec_len ahead.buffer)
        × (0 < vec_len ahead.buffer) };
}

impl Ahead {
    pub fn new(alloc: Global) -> Result<Ahead, AllocError>
        ensures { IfOk result (λ ahead. ahead ≡ []) }
    {
        Ok(Ahead {
            buffer: vec![in alloc; 0; CAPACITY]?,
            start: 0,
            end: 0,
        })
    }

    /// Reads on where nothing stands ahead, and says whether a byte does now.
    pub fn look<S: Source>(&mut self, source: &mut S) -> Result<bool, Failed>
        ensures bytes { prepend_known self.new (S.left source.new) ≡ prepend_known self.old (S.left source.old) }
        ensures found { IfOk result (λ found. IsTrue found → 0 < length self.new) }
        ensures end { IfOk result (λ found. IsFalse found →
            (self.old ≡ []) × (self.new ≡ []) × IsAtEnd (S.left source.new)) }
        ensures stopped { OnErr result (self.new ≡ []) }
        ensures told { is_some (S.left source.new) ≡ is_some (S.left source.old) }
        ensures files { S.files source.new ≡ S.files source.old }
        ensures starts { S.starts source.new ≡ S.starts source.old }
        ensures cause { HasCause (S.faults source.old) (S.faults source.new) result }
    {
        if self.start < self.end {
            return Ok(true);
        }
        let count = source.read(&mut self.buffer)?;
        self.start = 0;
        self.end = count;
        Ok(0 < count)
    }

    /// Moves what stands before the first LF, or all where there is none, to the end of `line`, takes that
    /// LF, and says whether there was one.
    pub fn move_to(&mut self, line: &mut Vec<u8>) -> Result<bool, LineRefusal>
        requires { length line.old.items ≤ max_line }
        ensures moved { IfOk result (MovesPiece self.old self.new line.old.items line.new.items) }
        ensures short { OnOk result (length line.new.items ≤ max_line) }
        ensures too_long { IsErrOf result LineRefusal.LineTooLong → OverflowsLine self.old line.old.items }
        ensures no_fault { IsErrOf result LineRefusal.ReadFault → ⊥ }
    {
        let (piece, ended) = first_piece(self.bytes());
        let count = piece.len();
        if MAX_LINE - line.len() < count {
            return Err(LineRefusal::LineTooLong);
        }
        line.extend_from_slice(piece)?;
        self.consume(count + 1);
        Ok(ended)
    }

    /// The same where there is an LF. Where there is none, the line would be too long, or memory runs out, it takes
    /// nothing and says so.
    pub fn move_whole(&mut self, line: &mut Vec<u8>) -> bool
        requires { length line.old.items ≤ max_line }
        ensures moved { IsTrue result → MovesPiece self.old self.new line.old.items line.new.items true }
        ensures short { IsTrue result → length line.new.items ≤ max_line }
        ensures same { IsFalse result → self.new ≡ self.old }
    {
        let (piece, ended) = first_piece(self.bytes());
        let count = piece.len();
        if !ended || MAX_LINE - line.len() < count {
            return false;
        }
        if line.extend_from_slice(piece).is_err() {
            return false;
        }
        self.consume(count + 1);
        true
    }

    /// How many bytes they are.
    pub fn len(&self) -> usize {
        self.end - self.start
    }

    fn bytes(&self) -> &[u8]
        ensures { result.now ≡ self.now }
    {
        &self.buffer[self.start..self.end]
    }

    // Takes as many first bytes, or all where there are fewer.
    fn consume(&mut self, count: usize)
        ensures { self.new ≡ drop count self.old }
    {
        self.start = self.start.saturating_add(count).min(self.end);
    }
}

// What stands before the first LF, or all where there is none, and whether there is one.
fn first_piece(bytes: &[u8]) -> (&[u8], bool)
    ensures { IsFirstPiece bytes.now result.0.now (drop (length result.0.now + 1) bytes.now) result.1 }
{
    match memchr(b'\n', bytes) {
        Some(at) => (&bytes[..at], true),
        None => (bytes, false),
    }
}
