//! A line that stands alone, and what is known of it before its turn.
ghost use Rattle.std.specs.Prelude.{◌≡◌, ◌≤◌, Ok, IfOk, IfErr, IfSome, IsTrue, codes};
ghost use Rattle.dnr_base.specs.Faults.{Rose};
ghost use Rattle.line_spec.specs.IsFault.{IsCalm, IsFaultOf, IsFaultOfLine};
ghost use Rattle.line_spec.specs.Line as spec;
ghost use Rattle.lines_ahead.specs.Cut.{IsPlainLine};
ghost use Rattle.lines_ahead.specs.Plain.{HasNoString};
ghost use Rattle.script_read.specs.Seen.{command_seen};

use crate::plain::{PlainSearch, lacks_sync};
use regex_host::RegexHost;
use script_read::{Asked, Command, LineFault, Memo, ask_line, finish_line, read_line_with};
use std::alloc::Global;
use std::marker::Model;

/// A line that was cut from a script, and what it asks for, once it was asked. A clause sees its number and its bytes:
/// that it was asked changes nothing that is read.
#[derive(Drop)]
pub struct CutLine {
    number: u32,
    bytes: Vec<u8>,
    // Whether its bytes show that it asks for a request at most, and likely for one.
    plain: bool,
    // Few lines are asked, so what they ask for stands apart, and a line is moved as a few words.
    asked: Option<Box<Result<Asked, LineFault>>>,
}

impl Model for CutLine {
    ghost use Rattle.std.specs.Prelude.{IfSome, IsTrue};
    ghost use Rattle.lines_ahead.specs.Cut.{CutSeen, IsPlainLine, IsTold};

    ghost Value = { CutSeen };

    ghost view = { λ l. record { number = l.number; bytes = l.bytes.items } };

    ghost invariant = { λ l. IfSome l.asked (λ asked. IsTold l.number l.bytes.items asked.value)
        × (IsTrue l.plain → IsPlainLine (record { number = l.number; bytes = l.bytes.items })) };
}

impl CutLine {
    /// The line of this number, from 1, without the LF at its end. It was not asked yet.
    pub fn new(number: u32, bytes: Vec<u8>, search: &PlainSearch) -> CutLine
        ensures number { result.number ≡ number }
        ensures bytes { result.bytes ≡ bytes.items }
    {
        let plain = search.is_plain(&bytes) && search.may_be_seen(&bytes);
        CutLine {
            number,
            bytes,
            plain,
            asked: None,
        }
    }

    /// Which line of the script it is, from 1.
    pub fn number(&self) -> u32
        ensures { result ≡ self.now.number }
    {
        self.number
    }

    /// Its bytes, without the LF at its end.
    pub fn bytes(&self) -> &[u8]
        ensures { result.now ≡ self.now.bytes }
    {
        &self.bytes
    }

    /// The memory of its bytes, for another line.
    pub fn into_bytes(self) -> Vec<u8> {
        self.bytes
    }

    /// Whether its bytes show that it asks for a request, if for anything. A line that likely is none, since it names no URL
    /// that rules see, isn't taken for one.
    pub fn is_plain(&self) -> bool
        ensures { IsTrue result → IsPlainLine self.now }
    {
        self.plain
    }

    /// Whether it may be a sync, as its bytes show: it has the string `"sync"`, or may write it by an escape. A plain line
    /// is none.
    pub fn may_sync(&self) -> bool
        ensures syncs { spec.command_of self.now.number self.now.bytes ≡ Ok spec.sync → IsTrue result }
        ensures told { IsTrue result → ¬ HasNoString (codes "sync") self.now.bytes }
    {
        !self.plain && !lacks_sync(&self.bytes)
    }

    /// Reads a plain line, for which no pattern host is needed.
    ///
    /// # Errors
    ///
    /// Those of `read_line`, but for `RuleRefused` and `InBatch`.
    pub fn read_plain(&self, alloc: Global, memo: &mut Memo) -> Result<Command, LineFault>
        requires { IsPlainLine self.now }
        ensures read { IfOk result (λ command. spec.command_of self.now.number self.now.bytes ≡ Ok
            (command_seen command)) }
        ensures within_limits { IfOk result (λ command. spec.IsWithinLimits (command_seen command)) }
        ensures refused { IfErr result (IsFaultOf (spec.command_of self.now.number self.now.bytes)) }
    {
        match ask_line(alloc, self.number, &self.bytes, memo)? {
            Asked::Command(command) => Ok(command),
            // No plain line asks for updates.
            Asked::Update(_) | Asked::Batch => Err(LineFault::NoMemory),
        }
    }

    /// Whether it is worth asking: it isn't plain, since whoever answers a plain line asks it, and wasn't asked before.
    pub fn wants_asking(&self) -> bool {
        !self.plain && self.asked.is_none()
    }

    /// Asks the line what it asks for, so that `finish` has less to do. It needs no pattern host. Where memory runs out,
    /// the line is as one that was not asked.
    pub fn ask(&mut self, alloc: Global, memo: &mut Memo)
        ensures { self.new ≡ self.old }
    {
        self.asked = match ask_line(alloc, self.number, &self.bytes, memo) {
            Ok(asked) => kept(alloc, Ok(asked)),
            Err(LineFault::NoMemory) => None,
            Err(fault) => kept(alloc, Err(fault)),
        };
    }

    /// Reads the line, or what is left to read of it where it was asked.
    ///
    /// # Errors
    ///
    /// Those of `read_line`.
    pub fn finish<H: RegexHost>(
        self,
        alloc: Global,
        memo: &mut Memo,
        host: &mut H,
    ) -> Result<Command, LineFault>
        ensures read { IfOk result (λ command. spec.command_of self.number self.bytes ≡ Ok (command_seen command)) }
        ensures within_limits { IfOk result (λ command. spec.IsWithinLimits (command_seen command)) }
        ensures refused { IfErr result
            (IsFaultOfLine self.number self.bytes (Rose (H.faults host.old) (H.faults host.new))) }
        ensures calm { IsCalm (H.faults host.old) (H.faults host.new) result }
        ensures later { H.faults host.old ≤ H.faults host.new }
    {
        let CutLine {
            number,
            bytes,
            plain: _,
            asked,
        } = self;
        let Some(asked) = asked else {
            return read_line_with(alloc, number, &bytes, memo, host);
        };
        match Box::into_inner(asked) {
            Ok(asked) => finish_line(alloc, number, &bytes, asked, memo, host),
            Err(fault) => Err(fault),
        }
    }
}

// What a line was told to ask for, where there is memory to keep it.
fn kept(alloc: Global, told: Result<Asked, LineFault>) -> Option<Box<Result<Asked, LineFault>>>
    ensures { IfSome result (λ kept. kept.value ≡ told) }
{
    let kept: Result<_, _> = Box::new(alloc, told);
    kept.ok()
}
