//! The answer to one line, and what it leaves.
ghost use Rattle.std.specs.Prelude.{◌≡◌, ◌≤◌, ◌<◌, ◌∷◌, ◌++◌, [], Ok, Some, length, IfOk, OnOk, IfSome, string_bytes};
ghost use Rattle.line_spec.specs.Batch.{max_batch};
ghost use Rattle.line_spec.specs.Line as spec;
ghost use Rattle.ruleset_store.specs.Seen.{update_seen, updates_seen};
ghost use Rattle.script_read.specs.Seen.{command_seen};
ghost use Rattle.session_laws.specs.Turns.{LineTold, FaultsRise};
ghost use Rattle.session_serve.specs.Told.{CommandTold, ReplyTold, IsNamed};
ghost use Rattle.session_spec.specs.Output.{accepted_line, refused_line, refused_batch_line, reply_line};
ghost use Rattle.engine.specs.Asking.{setting, state_left};

use dnr_base::{Items, NoMemory};
use explain_report::{Reply, write_reply};
use generation::{BatchRefusal, Generation, Refusal, Update};
use regex_host::RegexHost;
use script_read::{Command, LineFault, Memo, read_line_with};
use session_serve::{decide, explain};
use std::alloc::Global;

/// Appends what the line of this number says, and gives the generation that it leaves, if that is another.
pub(crate) fn answer<H: RegexHost>(
    alloc: Global,
    generation: &Generation,
    number: u32,
    line: &[u8],
    memo: &mut Memo,
    checker: &mut H,
    finder: &mut H,
    into: &mut String,
) -> Result<Option<Generation>, NoMemory>
    ensures told { IfOk result (λ next. LineTold (setting generation.now.suffixes 1) generation.now.state number 0 line.now
        (string_bytes into.old) (string_bytes into.new) (state_left generation.now.state next)
        (FaultsRise (H.faults checker.old ∷ H.faults finder.old ∷ []) (H.faults checker.new ∷ H.faults finder.new ∷ []))) }
    ensures suffixes { IfOk result (λ next. IfSome next (λ basis. basis.suffixes ≡ generation.now.suffixes)) }
    ensures checker_later { H.faults checker.old ≤ H.faults checker.new }
    ensures finder_later { H.faults finder.old ≤ H.faults finder.new }
{
    match read_line_with(alloc, number, line, memo, checker) {
        Ok(command) => serve(alloc, generation, number, &command, finder, into),
        Err(LineFault::NoMemory) => Err(NoMemory),
        Err(fault) => match write_reply(alloc, number, &Reply::Bad(fault), into) {
            Ok(()) => Ok(None),
            Err(NoMemory) => Err(NoMemory),
        },
    }
}

// The same of a line that asks for this.
fn serve<H: RegexHost>(
    alloc: Global,
    generation: &Generation,
    number: u32,
    command: &Command,
    finder: &mut H,
    into: &mut String,
) -> Result<Option<Generation>, NoMemory>
    requires { spec.IsWithinLimits (command_seen command.now) }
    ensures told { IfOk result (λ next. CommandTold (setting generation.now.suffixes 1) generation.now.state number 0
        (Ok (command_seen command.now)) (string_bytes into.old) (string_bytes into.new) (state_left generation.now.state next)
        (H.faults finder.old ∷ []) (H.faults finder.new ∷ [])) }
    ensures suffixes { IfOk result (λ next. IfSome next (λ basis. basis.suffixes ≡ generation.now.suffixes)) }
    ensures later { H.faults finder.old ≤ H.faults finder.new }
{
    match command {
        Command::Request(request) => {
            match decide(alloc, generation, number, request, finder, into) {
                Ok(()) => Ok(None),
                Err(NoMemory) => Err(NoMemory),
            }
        }
        Command::Explain(request) => {
            match explain(alloc, generation, number, request, finder, into) {
                Ok(()) => Ok(None),
                Err(NoMemory) => Err(NoMemory),
            }
        }
        Command::Blank => Ok(None),
        Command::Sync => sync(alloc, generation, number, into),
        Command::Update(update) => apply(alloc, generation, number, update, into),
        Command::Batch(updates) => apply_batch(alloc, generation, number, updates, into),
    }
}

fn sync(
    alloc: Global,
    generation: &Generation,
    number: u32,
    into: &mut String,
) -> Result<Option<Generation>, NoMemory>
    ensures told { IfOk result (λ next. ReplyTold (setting generation.now.suffixes 0) generation.now.state number (Ok spec.sync)
        (string_bytes into.old) (string_bytes into.new) (state_left generation.now.state next)) }
    ensures suffixes { IfOk result (λ next. IfSome next (λ basis. basis.suffixes ≡ generation.now.suffixes)) }
{
    let count = generation.number();
    match write_reply(alloc, number, &Reply::Sync(count), into) {
        Ok(()) => Ok(None),
        Err(NoMemory) => Err(NoMemory),
    }
}

// Judges an update, and says what becomes of it.
fn apply(
    alloc: Global,
    generation: &Generation,
    number: u32,
    update: &Update,
    into: &mut String,
) -> Result<Option<Generation>, NoMemory>
    ensures told { IfOk result (λ next. ReplyTold (setting generation.now.suffixes 0) generation.now.state number
        (Ok (spec.update (update_seen update.now)))
        (string_bytes into.old) (string_bytes into.new) (state_left generation.now.state next)) }
    ensures suffixes { IfOk result (λ next. IfSome next (λ basis. basis.suffixes ≡ generation.now.suffixes)) }
{
    match generation.next(alloc, update) {
        Ok(next) => accept(alloc, number, next, into),
        Err(refusal) => match refuse(alloc, number, refusal, into) {
            Ok(()) => Ok(None),
            Err(NoMemory) => Err(NoMemory),
        },
    }
}

// The same of updates that are applied together.
fn apply_batch(
    alloc: Global,
    generation: &Generation,
    number: u32,
    updates: &Items<Update>,
    into: &mut String,
) -> Result<Option<Generation>, NoMemory>
    requires some { 0 < length updates.now }
    requires few { length updates.now ≤ max_batch }
    ensures told { IfOk result (λ next. ReplyTold (setting generation.now.suffixes 0) generation.now.state number
        (Ok (spec.batch (updates_seen updates.now)))
        (string_bytes into.old) (string_bytes into.new) (state_left generation.now.state next)) }
    ensures suffixes { IfOk result (λ next. IfSome next (λ basis. basis.suffixes ≡ generation.now.suffixes)) }
{
    match generation.next_batch(alloc, updates.as_slice()) {
        Ok(next) => accept(alloc, number, next, into),
        Err(refusal) => match refuse_batch(alloc, number, refusal, into) {
            Ok(()) => Ok(None),
            Err(NoMemory) => Err(NoMemory),
        },
    }
}

// Says that this generation comes next.
fn accept(
    alloc: Global,
    number: u32,
    next: Generation,
    into: &mut String,
) -> Result<Option<Generation>, NoMemory>
    ensures appended { OnOk result (string_bytes into.new ≡ string_bytes into.old
        ++ accepted_line number next.state.count) }
    ensures next { IfOk result (λ given. given ≡ Some next) }
{
    match write_reply(alloc, number, &Reply::Accepted(next.number()), into) {
        Ok(()) => Ok(Some(next)),
        Err(NoMemory) => Err(NoMemory),
    }
}

fn refuse(alloc: Global, number: u32, refusal: Refusal, into: &mut String) -> Result<(), NoMemory>
    ensures { OnOk result (IsNamed refusal
        × (string_bytes into.new ≡ string_bytes into.old ++ refused_line number refusal)) }
{
    match refusal {
        Refusal::NoMemory => Err(NoMemory),
        cause => write_reply(alloc, number, &Reply::Refused(cause), into),
    }
}

fn refuse_batch(
    alloc: Global,
    number: u32,
    refusal: BatchRefusal,
    into: &mut String,
) -> Result<(), NoMemory>
    ensures { OnOk result (IsNamed refusal.cause
        × (string_bytes into.new ≡ string_bytes into.old ++ refused_batch_line number refusal.place refusal.cause)) }
{
    match refusal.cause {
        Refusal::NoMemory => Err(NoMemory),
        cause => write_reply(
            alloc,
            number,
            &Reply::BatchRefused(refusal.place, cause),
            into,
        ),
    }
}
