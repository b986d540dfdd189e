// What one line is told.
ghost use Rattle.std.specs.Prelude.{◌≡◌, ◌≤◌, None, Ok, Err, IfOk, OnOk, OnErr, IsTrue, string_bytes};
ghost use Rattle.dnr_base.specs.Faults.{HasCauseOf};
ghost use Rattle.keep_spec.specs.Agrees.{Agrees, Sound};
ghost use Rattle.keep_spec.specs.Kept.{state_of};
ghost use Rattle.line_spec.specs.Line as spec;
ghost use Rattle.ruleset_store.specs.Seen.{update_seen};
ghost use Rattle.script_read.specs.Seen.{command_seen};
ghost use Rattle.update_spec.specs.Judge.{judge_update};
ghost use Rattle.keep_run_spec.specs.Answers.{asked_of, keep_this};
ghost use Rattle.keep_run_spec.specs.Output as output;
ghost use Rattle.keep_spec.specs.Written.{MayBeKept};
ghost use Rattle.line_spec.specs.declared.command_path.CommandPath.TheVariants.{Cmd};
ghost use Rattle.line_spec.specs.declared.line_fault.LineFault.TheVariants.{BadCommand};
ghost use Rattle.session_spec.specs.Output.{bad_line, reply_line};
ghost use Rattle.keep_run_spec.specs.Ends.{LosesNothing, between};
ghost use Rattle.keep_run.specs.Lines.{AskedTold, LineTold};

use crate::report::{full_line, replied};
use crate::stop::LineStop;
use explain_report::Reply;
use keep_disk::Disk;
use keep_laws::read_updates_may_be_kept;
use line_spec::{CommandPath, LineFault};
use regex_host::RegexHost;
use rule_keep::{Keep, PutRefusal, is_dynamic_of};
use ruleset_store::Update;
use script_read::{Command, Memo, read_line_with};
use std::alloc::Global;
use update_spec::Refusal;

// Answers the line of this number, and keeps its update if it asks for that and is accepted. A crash at `Ok` leaves all
// that is then kept.
pub(crate) fn answer<H: RegexHost, D: Disk>(
    alloc: Global,
    keep: &mut Keep,
    name: &str,
    number: u32,
    line: &[u8],
    memo: &mut Memo,
    host: &mut H,
    disk: &mut D,
) -> Result<String, LineStop>
    requires live { IsTrue keep.old.live }
    requires name { keep.old.name ≡ name.now }
    requires agrees { IsTrue (D.tells disk.old) → Agrees (D.images disk.old) keep.old }
    ensures told { IfOk result (λ text. LineTold (between (H.faults host.old) (H.faults host.new))
        keep.old number line.now (string_bytes text) keep.new) }
    ensures agrees { OnOk result (IsTrue (D.tells disk.old) → Agrees (D.images disk.new) keep.new) }
    ensures safe { OnErr result (IsTrue (D.tells disk.old) → LosesNothing (D.images disk.new) keep.old) }
    ensures live { OnOk result (IsTrue keep.new.live) }
    ensures name { keep.new.name ≡ keep.old.name }
    ensures sound { IsTrue (D.tells disk.old) → Sound keep.old.name (D.images disk.old) →
        Sound keep.old.name (D.images disk.new) }
    ensures tells { D.tells disk.new ≡ D.tells disk.old }
    ensures later { H.faults host.old ≤ H.faults host.new }
    ensures cause { HasCauseOf LineStop.DiskFault (D.faults disk.old) (D.faults disk.new) result }
{
    match read_line_with(alloc, number, line, memo, host) {
        Ok(command) => Ok(serve(alloc, keep, name, number, line, &command, disk)?),
        Err(LineFault::NoMemory) => Err(LineStop::NoMemory),
        Err(fault) => Ok(say(alloc, number, Reply::Bad(fault))?),
    }
}

// Serves the command that a line reads as.
fn serve<D: Disk>(
    alloc: Global,
    keep: &mut Keep,
    name: &str,
    number: u32,
    line: &[u8],
    command: &Command,
    disk: &mut D,
) -> Result<String, LineStop>
    requires live { IsTrue keep.old.live }
    requires name { keep.old.name ≡ name.now }
    requires agrees { IsTrue (D.tells disk.old) → Agrees (D.images disk.old) keep.old }
    requires read { spec.command_of number line.now ≡ Ok (command_seen command.now) }
    ensures told { IfOk result (λ text.
        AskedTold keep.old number (asked_of keep.old number line.now) (string_bytes text) keep.new) }
    ensures agrees { OnOk result (IsTrue (D.tells disk.old) → Agrees (D.images disk.new) keep.new) }
    ensures safe { OnErr result (IsTrue (D.tells disk.old) → LosesNothing (D.images disk.new) keep.old) }
    ensures live { OnOk result (IsTrue keep.new.live) }
    ensures name { keep.new.name ≡ keep.old.name }
    ensures sound { IsTrue (D.tells disk.old) → Sound keep.old.name (D.images disk.old) →
        Sound keep.old.name (D.images disk.new) }
    ensures tells { D.tells disk.new ≡ D.tells disk.old }
    ensures cause { HasCauseOf LineStop.DiskFault (D.faults disk.old) (D.faults disk.new) result }
{
    match command {
        Command::Blank => Ok(String::new(alloc)),
        Command::Update(update) => Ok(keep_update(alloc, keep, name, number, line, update, disk)?),
        Command::Sync | Command::Request(_) | Command::Explain(_) | Command::Batch(_) => {
            Ok(refuse_command(alloc, number)?)
        }
    }
}

// Keeps the update that a line reads as, if it is a dynamic one of the extension and is accepted.
fn keep_update<D: Disk>(
    alloc: Global,
    keep: &mut Keep,
    name: &str,
    number: u32,
    line: &[u8],
    update: &Update,
    disk: &mut D,
) -> Result<String, LineStop>
    requires live { IsTrue keep.old.live }
    requires name { keep.old.name ≡ name.now }
    requires agrees { IsTrue (D.tells disk.old) → Agrees (D.images disk.old) keep.old }
    requires read { spec.command_of number line.now ≡ Ok (spec.update (update_seen update.now)) }
    ensures told { IfOk result (λ text.
        AskedTold keep.old number (asked_of keep.old number line.now) (string_bytes text) keep.new) }
    ensures agrees { OnOk result (IsTrue (D.tells disk.old) → Agrees (D.images disk.new) keep.new) }
    ensures safe { OnErr result (IsTrue (D.tells disk.old) → LosesNothing (D.images disk.new) keep.old) }
    ensures live { OnOk result (IsTrue keep.new.live) }
    ensures name { keep.new.name ≡ keep.old.name }
    ensures sound { IsTrue (D.tells disk.old) → Sound keep.old.name (D.images disk.old) →
        Sound keep.old.name (D.images disk.new) }
    ensures tells { D.tells disk.new ≡ D.tells disk.old }
    ensures cause { HasCauseOf LineStop.DiskFault (D.faults disk.old) (D.faults disk.new) result }
{
    read_updates_may_be_kept();
    if !is_dynamic_of(update, name) {
        return Ok(refuse_command(alloc, number)?);
    }
    match keep.store().judge(alloc, update) {
        Ok(()) => Ok(put(alloc, keep, number, update, disk)?),
        Err(Refusal::NoMemory) => Err(LineStop::NoMemory),
        Err(refusal) => Ok(say(alloc, number, Reply::Refused(refusal))?),
    }
}

// Keeps an update that is accepted, and only then says so.
fn put<D: Disk>(
    alloc: Global,
    keep: &mut Keep,
    number: u32,
    update: &Update,
    disk: &mut D,
) -> Result<String, LineStop>
    requires live { IsTrue keep.old.live }
    requires agrees { IsTrue (D.tells disk.old) → Agrees (D.images disk.old) keep.old }
    requires accepted { judge_update (state_of keep.old.name keep.old.list) (update_seen update.now) ≡ None }
    requires update { MayBeKept keep.old.name (update_seen update.now) }
    ensures told { IfOk result (λ text.
        AskedTold keep.old number (keep_this (update_seen update.now)) (string_bytes text) keep.new) }
    ensures agrees { OnOk result (IsTrue (D.tells disk.old) → Agrees (D.images disk.new) keep.new) }
    ensures safe { OnErr result (IsTrue (D.tells disk.old) → LosesNothing (D.images disk.new) keep.old) }
    ensures live { OnOk result (IsTrue keep.new.live) }
    ensures name { keep.new.name ≡ keep.old.name }
    ensures sound { IsTrue (D.tells disk.old) → Sound keep.old.name (D.images disk.old) →
        Sound keep.old.name (D.images disk.new) }
    ensures tells { D.tells disk.new ≡ D.tells disk.old }
    ensures cause { HasCauseOf LineStop.DiskFault (D.faults disk.old) (D.faults disk.new) result }
{
    match keep.put(disk, update) {
        Ok(()) => Ok(say(alloc, number, Reply::Accepted(keep.store().count()))?),
        Err(PutRefusal::KeepFull) => Ok(say_full(alloc, number)?),
        Err(PutRefusal::DiskFault) => Err(LineStop::DiskFault),
        Err(PutRefusal::NoMemory) => Err(LineStop::NoMemory),
    }
}

// No other command is known.
fn refuse_command(alloc: Global, number: u32) -> Result<String, LineStop>
    ensures told { IfOk result (λ text. string_bytes text ≡ bad_line number (BadCommand Cmd)) }
    ensures cause { OnErr result (result ≡ Err LineStop.NoMemory) }
{
    say(
        alloc,
        number,
        Reply::Bad(LineFault::BadCommand(CommandPath::Cmd)),
    )
}

fn say(alloc: Global, number: u32, reply: Reply) -> Result<String, LineStop>
    ensures told { IfOk result (λ text. string_bytes text ≡ reply_line number reply) }
    ensures cause { OnErr result (result ≡ Err LineStop.NoMemory) }
{
    Ok(replied(alloc, number, &reply)?)
}

fn say_full(alloc: Global, number: u32) -> Result<String, LineStop>
    ensures told { IfOk result (λ text. string_bytes text ≡ output.full_line number) }
    ensures cause { OnErr result (result ≡ Err LineStop.NoMemory) }
{
    Ok(full_line(alloc, number)?)
}
