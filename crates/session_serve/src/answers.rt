//! The answer to one line.
ghost use Rattle.std.specs.Prelude.{◌≡◌, ◌≤◌, ◌<◌, ◌∷◌, ◌%◌, ◌++◌, Ok, length, map, IfOk, OnOk, string_bytes};
ghost use Rattle.dnr_base.specs.Request.{max_frames};
ghost use Rattle.line_spec.specs.Batch.{max_batch};
ghost use Rattle.line_spec.specs.Line as spec;
ghost use Rattle.ruleset_store.specs.Seen.{update_seen, updates_seen};
ghost use Rattle.line_spec.specs.declared.command_path.CommandPath.TheVariants.{Cmd};
ghost use Rattle.line_spec.specs.declared.line_fault.LineFault.TheVariants.{BadCommand};
ghost use Rattle.session_spec.specs.Output.{accepted_line, bad_line, refused_line, refused_batch_line, reply_line};
ghost use Rattle.script_read.specs.Seen.{command_seen};
ghost use Rattle.session_spec.specs.Answers.{known_with};
ghost use Rattle.session_laws.specs.Turns.{LineTold, FaultsRise, NoneFell};
ghost use Rattle.session_serve.specs.Round.{IsKindOf, setting_with};
ghost use Rattle.session_serve.specs.Told.{CommandTold, ReplyTold, IsNamed};

use crate::deciding::explain;
use crate::following::answer_request;
use crate::line_kind::LineKind;
use dnr_base::{Items, NoMemory, Request};
use explain_report::{Reply, write_reply};
use generation::{BatchRefusal, Generation, Refusal, Update};
use regex_host::RegexHost;
use script_read::{Command, CommandPath, LineFault, Memo, read_line_with};
use std::alloc::Global;
use std::marker::Model;

/// A session between two lines: what is in force, whether it takes updates, and whether requests are followed.
#[derive(Drop)]
pub struct Session {
    generation: Generation,
    updates: bool,
    follows: bool,
    memo: Memo,
}

impl Model for Session {
    ghost use Rattle.session_serve.specs.Position.{Position};

    ghost Value = { Position };

    ghost view = { λ s. record {
      suffixes = s.generation.suffixes;
      state = s.generation.state;
      updates = s.updates;
      follows = s.follows;
    } };
}

impl Session {
    /// A session that begins with what is in force. Without updates it knows requests alone. Where it follows, the answer
    /// to a request is where it leads, and nothing is explained.
    pub fn new(alloc: Global, generation: Generation, updates: bool, follows: bool) -> Session
        ensures { result ≡ record {
          suffixes = generation.suffixes;
          state = generation.state;
          updates = updates;
          follows = follows;
        } }
    {
        Session {
            generation,
            updates,
            follows,
            memo: Memo::new(alloc),
        }
    }

    /// Appends what the line of this number says, and applies it where it is an update that is accepted. Before it, so
    /// many lines of its round asked for answers to requests.
    pub fn answer<H: RegexHost>(
        &mut self,
        alloc: Global,
        number: u32,
        asked: u32,
        line: &[u8],
        checker: &mut H,
        finders: &mut [H],
        into: &mut String,
    ) -> Result<LineKind, NoMemory>
        requires { 0 < length finders.old }
        ensures told { OnOk result (LineTold (setting_with self.old (length finders.old))
            self.old.state number (asked % length finders.old) line.now
            (string_bytes into.old) (string_bytes into.new) self.new.state
            (FaultsRise (H.faults checker.old ∷ map H.faults finders.old) (H.faults checker.new ∷ map H.faults finders.new))) }
        ensures kind { IfOk result (IsKindOf (spec.command_of number line.now)) }
        ensures suffixes { self.new.suffixes ≡ self.old.suffixes }
        ensures updates { self.new.updates ≡ self.old.updates }
        ensures follows { self.new.follows ≡ self.old.follows }
        ensures seats { length finders.new ≡ length finders.old }
        ensures later { NoneFell (H.faults checker.old ∷ map H.faults finders.old)
            (H.faults checker.new ∷ map H.faults finders.new) }
    {
        match read_line_with(alloc, number, line, &mut self.memo, checker) {
            Ok(command) => match self.serve(alloc, number, asked, &command, finders, into) {
                Ok(()) => Ok(kind_of(&command)),
                Err(NoMemory) => Err(NoMemory),
            },
            Err(LineFault::NoMemory) => Err(NoMemory),
            Err(fault) => match say(alloc, number, Reply::Bad(fault), into) {
                Ok(()) => Ok(LineKind::Other),
                Err(NoMemory) => Err(NoMemory),
            },
        }
    }

    // Appends what a line says that asks for this.
    fn serve<H: RegexHost>(
        &mut self,
        alloc: Global,
        number: u32,
        asked: u32,
        command: &Command,
        finders: &mut [H],
        into: &mut String,
    ) -> Result<(), NoMemory>
        requires some { 0 < length finders.old }
        requires within { spec.IsWithinLimits (command_seen command.now) }
        ensures told { OnOk result (CommandTold (setting_with self.old (length finders.old)) self.old.state number (asked % length finders.old)
            (known_with self.old.updates (Ok (command_seen command.now)))
            (string_bytes into.old) (string_bytes into.new) self.new.state (map H.faults finders.old) (map H.faults finders.new)) }
        ensures suffixes { self.new.suffixes ≡ self.old.suffixes }
        ensures updates { self.new.updates ≡ self.old.updates }
        ensures follows { self.new.follows ≡ self.old.follows }
        ensures seats { length finders.new ≡ length finders.old }
        ensures later { NoneFell (map H.faults finders.old) (map H.faults finders.new) }
    {
        match command {
            Command::Request(request) => self.decide(alloc, number, asked, request, finders, into),
            Command::Explain(request) => self.explain(alloc, number, asked, request, finders, into),
            Command::Blank => Ok(()),
            Command::Sync => self.sync(alloc, number, into),
            Command::Update(update) => self.update(alloc, number, update, into),
            Command::Batch(updates) => self.batch(alloc, number, updates, into),
        }
    }

    // Answers a request by the seat whose turn it is: what becomes of it, or where it leads.
    fn decide<H: RegexHost>(
        &self,
        alloc: Global,
        number: u32,
        asked: u32,
        request: &Request,
        finders: &mut [H],
        into: &mut String,
    ) -> Result<(), NoMemory>
        requires some { 0 < length finders.old }
        requires frames { length request.now.frames ≤ max_frames }
        ensures told { OnOk result (CommandTold (setting_with self.now (length finders.old)) self.now.state number (asked % length finders.old)
            (known_with self.now.updates (Ok (spec.request request.now)))
            (string_bytes into.old) (string_bytes into.new) self.now.state (map H.faults finders.old) (map H.faults finders.new)) }
        ensures seats { length finders.new ≡ length finders.old }
        ensures later { NoneFell (map H.faults finders.old) (map H.faults finders.new) }
    {
        let seat = asked as usize % finders.len();
        answer_request(
            alloc,
            &self.generation,
            self.follows,
            number,
            request,
            &mut finders[seat],
            into,
        )
    }

    fn explain<H: RegexHost>(
        &self,
        alloc: Global,
        number: u32,
        asked: u32,
        request: &Request,
        finders: &mut [H],
        into: &mut String,
    ) -> Result<(), NoMemory>
        requires some { 0 < length finders.old }
        requires frames { length request.now.frames ≤ max_frames }
        ensures told { OnOk result (CommandTold (setting_with self.now (length finders.old)) self.now.state number (asked % length finders.old)
            (known_with self.now.updates (Ok (spec.explain request.now)))
            (string_bytes into.old) (string_bytes into.new) self.now.state (map H.faults finders.old) (map H.faults finders.new)) }
        ensures seats { length finders.new ≡ length finders.old }
        ensures later { NoneFell (map H.faults finders.old) (map H.faults finders.new) }
    {
        if self.follows {
            return refuse_command(alloc, number, into);
        }
        let seat = asked as usize % finders.len();
        explain(
            alloc,
            &self.generation,
            number,
            request,
            &mut finders[seat],
            into,
        )
    }

    fn sync(&self, alloc: Global, number: u32, into: &mut String) -> Result<(), NoMemory>
        ensures { OnOk result (ReplyTold (setting_with self.now 0) self.now.state number (known_with self.now.updates (Ok spec.sync))
            (string_bytes into.old) (string_bytes into.new) self.now.state) }
    {
        if self.updates {
            let count = self.generation.number();
            say(alloc, number, Reply::Sync(count), into)
        } else {
            refuse_command(alloc, number, into)
        }
    }

    // Applies an update, or says why it is refused.
    fn update(
        &mut self,
        alloc: Global,
        number: u32,
        update: &Update,
        into: &mut String,
    ) -> Result<(), NoMemory>
        ensures told { OnOk result (ReplyTold (setting_with self.old 0) self.old.state number
            (known_with self.old.updates (Ok (spec.update (update_seen update.now))))
            (string_bytes into.old) (string_bytes into.new) self.new.state) }
        ensures suffixes { self.new.suffixes ≡ self.old.suffixes }
        ensures updates { self.new.updates ≡ self.old.updates }
        ensures follows { self.new.follows ≡ self.old.follows }
    {
        if !self.updates {
            return refuse_command(alloc, number, into);
        }
        match self.generation.next(alloc, update) {
            Ok(next) => self.accept(alloc, number, next, into),
            Err(refusal) => refuse_update(alloc, number, refusal, into),
        }
    }

    // The same of updates that are applied together.
    fn batch(
        &mut self,
        alloc: Global,
        number: u32,
        updates: &Items<Update>,
        into: &mut String,
    ) -> Result<(), NoMemory>
        requires some { 0 < length updates.now }
        requires few { length updates.now ≤ max_batch }
        ensures told { OnOk result (ReplyTold (setting_with self.old 0) self.old.state number
            (known_with self.old.updates (Ok (spec.batch (updates_seen updates.now))))
            (string_bytes into.old) (string_bytes into.new) self.new.state) }
        ensures suffixes { self.new.suffixes ≡ self.old.suffixes }
        ensures updates { self.new.updates ≡ self.old.updates }
        ensures follows { self.new.follows ≡ self.old.follows }
    {
        if !self.updates {
            return refuse_command(alloc, number, into);
        }
        match self.generation.next_batch(alloc, updates.as_slice()) {
            Ok(next) => self.accept(alloc, number, next, into),
            Err(refusal) => refuse_batch(alloc, number, refusal, into),
        }
    }

    // Goes on from the next generation.
    fn accept(
        &mut self,
        alloc: Global,
        number: u32,
        next: Generation,
        into: &mut String,
    ) -> Result<(), NoMemory>
        ensures appended { OnOk result (string_bytes into.new ≡ string_bytes into.old
            ++ accepted_line number next.state.count) }
        ensures next { self.new ≡ record {
          suffixes = next.suffixes;
          state = next.state;
          updates = self.old.updates;
          follows = self.old.follows;
        } }
    {
        let count = next.number();
        self.generation = next;
        say(alloc, number, Reply::Accepted(count), into)
    }
}

// A session without updates, or one that follows requests, knows no such command.
fn refuse_command(alloc: Global, number: u32, into: &mut String) -> Result<(), NoMemory>
    ensures { OnOk result (string_bytes into.new ≡ string_bytes into.old ++ bad_line number (BadCommand Cmd)) }
{
    let fault = LineFault::BadCommand(CommandPath::Cmd);
    say(alloc, number, Reply::Bad(fault), into)
}

fn refuse_update(
    alloc: Global,
    number: u32,
    refusal: Refusal,
    into: &mut String,
) -> Result<(), NoMemory>
    ensures { OnOk result (IsNamed refusal
        × (string_bytes into.new ≡ string_bytes into.old ++ refused_line number refusal)) }
{
    match refusal {
        Refusal::NoMemory => Err(NoMemory),
        cause => say(alloc, number, Reply::Refused(cause), into),
    }
}

fn refuse_batch(
    alloc: Global,
    number: u32,
    refusal: BatchRefusal,
    into: &mut String,
) -> Result<(), NoMemory>
    ensures { OnOk result (IsNamed refusal.cause
        × (string_bytes into.new ≡ string_bytes into.old ++ refused_batch_line number refusal.place refusal.cause)) }
{
    match refusal.cause {
        Refusal::NoMemory => Err(NoMemory),
        cause => say(
            alloc,
            number,
            Reply::BatchRefused(refusal.place, cause),
            into,
        ),
    }
}

fn say(alloc: Global, number: u32, reply: Reply, into: &mut String) -> Result<(), NoMemory>
    ensures { OnOk result (string_bytes into.new ≡ string_bytes into.old ++ reply_line number reply) }
{
    write_reply(alloc, number, &reply, into)
}

// What the line means for its round.
fn kind_of(command: &Command) -> LineKind
    ensures { IsKindOf (Ok (command_seen command.now)) result }
{
    match command {
        Command::Sync => LineKind::Sync,
        Command::Request(_) | Command::Explain(_) => LineKind::Asks,
        Command::Blank | Command::Update(_) | Command::Batch(_) => LineKind::Other,
    }
}
