//! A session: what was loaded is installed, and the script is served.
ghost use Rattle.std.specs.Prelude.{◌≡◌, ◌≢◌, ◌≤◌, ◌<◌, ◌∷◌, length, map, is_some, true, false, Err, IfOk, IfErr, IfSome};
ghost use Rattle.dnr_base.specs.Faults.{Rose, HasCause, HasCauseOf};
ghost use Rattle.session_load.specs.Stops.{Prints, StopsAs};
ghost use Rattle.session_laws.specs.Turns.{NoneFell, counts_between};
ghost use Rattle.session_serve.specs.Round.{setting_with};
ghost use Rattle.session_serve.specs.Serving.{EndsServing};
ghost use Rattle.session_spec.specs.Refusals.{install_line};
ghost use Rattle.text_commands.specs.Ends.{count, outside};
ghost use Rattle.dnr_top.specs.Run.{IsOpened, MayServe, PrintsInstall, status_of};

use dnr_base::NoMemory;
use dnr_io::{Shelf, Sink, Source, Status};
use explain_report::write_install_refusal;
use generation::{FirstRefusal, Generation};
use lookup_pool::Gate;
use regex_host::RegexHost;
use session_load::{Loaded, Stop};
use session_seats::serve_with_seats;
use session_serve::{ServeStop, Session, serve_lines};
use std::alloc::Global;
use std::sync::Wait;
use std::thread::Threads;
use text_commands::stop_with;
use update_spec::Refusal;

/// Installs what was loaded, and serves the script with so many of the finders, each for a seat beside the writer. Without
/// updates it knows requests alone, and answers them in turn, each with where it leads where they are followed.
pub fn serve<R: Threads + Wait + Sync, F: Shelf, O: Sink, H: RegexHost + Send, G: Gate + Sync>(
    rt: &R,
    alloc: Global,
    loaded: Loaded,
    script: &str,
    updates: bool,
    follows: bool,
    workers: usize,
    shelf: &mut F,
    out: &mut O,
    checker: &mut H,
    finders: &mut [H],
    gate: &G,
) -> Status
    requires some { 0 < workers }
    requires few { workers ≤ 8 }
    requires enough { workers ≤ length finders.old }
    requires named { F.allows script.now }
    requires either { updates ≡ true → follows ≡ false }
    ensures no_usage { result ≢ Status.Usage }
    ensures allowed { MayServe (F.Source.files shelf.old) loaded updates follows workers script.now
        (O.taken out.old) (O.taken out.new)
        (outside (count (F.Source.faults shelf.old) (F.Source.faults shelf.new))
        (count (F.Source.starts shelf.old) (F.Source.starts shelf.new)) (count (O.faults out.old) (O.faults out.new))
        (H.faults checker.old ∷ map H.faults finders.old) (H.faults checker.new ∷ map H.faults finders.new)
        (F.Source.left shelf.new)) result }
    ensures later { NoneFell (H.faults checker.old ∷ map H.faults finders.old)
        (H.faults checker.new ∷ map H.faults finders.new) }
    ensures shelf_later { F.Source.faults shelf.old ≤ F.Source.faults shelf.new }
    ensures read_fault { result ≡ Status.ReadFault → Rose (F.Source.faults shelf.old) (F.Source.faults shelf.new) }
    ensures write_fault { result ≡ Status.WriteFault → Rose (O.faults out.old) (O.faults out.new) }
{
    let generation = match install(alloc, loaded) {
        Ok(generation) => generation,
        Err(stop) => return stop_with(&stop, out),
    };
    match shelf.start(script) {
        Ok(()) => ended(serve_started(
            rt, alloc, generation, updates, follows, workers, shelf, out, checker, finders, gate,
        )),
        Err(_) => Status::ReadFault,
    }
}

// Serves what the source has left with so many of the finders.
fn serve_started<R: Threads + Wait + Sync, S: Source, O: Sink, H: RegexHost + Send, G: Gate + Sync>(
    rt: &R,
    alloc: Global,
    generation: Generation,
    updates: bool,
    follows: bool,
    workers: usize,
    source: &mut S,
    out: &mut O,
    checker: &mut H,
    finders: &mut [H],
    gate: &G,
) -> Result<(), ServeStop>
    requires some { 0 < workers }
    requires few { workers ≤ 8 }
    requires enough { workers ≤ length finders.old }
    requires fresh { generation.state.count ≡ 0 }
    requires either { updates ≡ true → follows ≡ false }
    ensures served { IfSome (S.left source.old) (λ script. EndsServing (O.taken out.old) (O.taken out.new)
        (counts_between (H.faults checker.old ∷ map H.faults finders.old) (H.faults checker.new ∷ map H.faults finders.new))
        (record { suffixes = generation.suffixes; workers = workers; updates = updates; follows = follows }) generation.state script (S.left source.new) result) }
    ensures later { NoneFell (H.faults checker.old ∷ map H.faults finders.old)
        (H.faults checker.new ∷ map H.faults finders.new) }
    ensures told { is_some (S.left source.new) ≡ is_some (S.left source.old) }
    ensures starts { S.starts source.new ≡ S.starts source.old }
    ensures read_fault { HasCauseOf ServeStop.ReadFault (S.faults source.old) (S.faults source.new) result }
    ensures write_fault { HasCauseOf ServeStop.WriteFault (O.faults out.old) (O.faults out.new) result }
{
    if updates {
        serve_beside(
            rt, alloc, generation, workers, source, out, checker, finders, gate,
        )
    } else {
        serve_in_turn(
            alloc, generation, follows, workers, source, out, checker, finders,
        )
    }
}

// By seats beside the writer of updates.
fn serve_beside<R: Threads + Wait + Sync, S: Source, O: Sink, H: RegexHost + Send, G: Gate + Sync>(
    rt: &R,
    alloc: Global,
    generation: Generation,
    workers: usize,
    source: &mut S,
    out: &mut O,
    checker: &mut H,
    finders: &mut [H],
    gate: &G,
) -> Result<(), ServeStop>
    requires some { 0 < workers }
    requires few { workers ≤ 8 }
    requires enough { workers ≤ length finders.old }
    requires fresh { generation.state.count ≡ 0 }
    ensures served { IfSome (S.left source.old) (λ script. EndsServing (O.taken out.old) (O.taken out.new)
        (counts_between (H.faults checker.old ∷ map H.faults finders.old) (H.faults checker.new ∷ map H.faults finders.new))
        (record { suffixes = generation.suffixes; workers = workers; updates = true; follows = false }) generation.state script (S.left source.new) result) }
    ensures later { NoneFell (H.faults checker.old ∷ map H.faults finders.old)
        (H.faults checker.new ∷ map H.faults finders.new) }
    ensures told { is_some (S.left source.new) ≡ is_some (S.left source.old) }
    ensures starts { S.starts source.new ≡ S.starts source.old }
    ensures read_fault { HasCauseOf ServeStop.ReadFault (S.faults source.old) (S.faults source.new) result }
    ensures write_fault { HasCauseOf ServeStop.WriteFault (O.faults out.old) (O.faults out.new) result }
{
    let (seats, _) = finders.split_at_mut(workers);
    serve_with_seats(rt, alloc, generation, source, out, checker, seats, gate)
}

// Without updates, one request after another.
fn serve_in_turn<S: Source, O: Sink, H: RegexHost>(
    alloc: Global,
    generation: Generation,
    follows: bool,
    workers: usize,
    source: &mut S,
    out: &mut O,
    checker: &mut H,
    finders: &mut [H],
) -> Result<(), ServeStop>
    requires some { 0 < workers }
    requires enough { workers ≤ length finders.old }
    ensures served { IfSome (S.left source.old) (λ script. EndsServing (O.taken out.old) (O.taken out.new)
        (counts_between (H.faults checker.old ∷ map H.faults finders.old) (H.faults checker.new ∷ map H.faults finders.new))
        (record { suffixes = generation.suffixes; workers = workers; updates = false; follows = follows }) generation.state script (S.left source.new) result) }
    ensures later { NoneFell (H.faults checker.old ∷ map H.faults finders.old)
        (H.faults checker.new ∷ map H.faults finders.new) }
    ensures told { is_some (S.left source.new) ≡ is_some (S.left source.old) }
    ensures starts { S.starts source.new ≡ S.starts source.old }
    ensures read_fault { HasCauseOf ServeStop.ReadFault (S.faults source.old) (S.faults source.new) result }
    ensures write_fault { HasCauseOf ServeStop.WriteFault (O.faults out.old) (O.faults out.new) result }
{
    let session = Session::new(alloc, generation, false, follows);
    let (seats, _) = finders.split_at_mut(workers);
    serve_lines(alloc, session, source, out, checker, seats)
}

// The status that the serving of a script ends with.
fn ended(served: Result<(), ServeStop>) -> Status
    ensures status { result ≡ status_of served }
    ensures no_usage { result ≢ Status.Usage }
{
    match served {
        Ok(()) => Status::Done,
        Err(ServeStop::ReadFault) => Status::ReadFault,
        Err(ServeStop::WriteFault) => Status::WriteFault,
        Err(ServeStop::TooLong) => Status::FileTooLong,
        Err(ServeStop::NoMemory) => Status::NoMemory,
    }
}

// The generation in which all is installed.
fn install(alloc: Global, loaded: Loaded) -> Result<Generation, Stop>
    ensures opens { IfOk result (IsOpened loaded) }
    ensures stops { IfErr result (StopsAs (PrintsInstall loaded) ⊥) }
    ensures no_fault { result ≢ Err Stop.ReadFault }
{
    match Generation::first(alloc, loaded.suffixes, loaded.extensions) {
        Ok(generation) => Ok(generation),
        Err(FirstRefusal::Refused(name, refusal)) => Err(refused(alloc, name.as_str(), &refusal)),
        Err(FirstRefusal::NoMemory) => Err(Stop::NoMemory),
    }
}

// The line that says why an extension is not installed, unless memory runs out for it.
fn refused(alloc: Global, extension: &str, refusal: &Refusal) -> Stop
    ensures { Prints (install_line (record { extension = extension.now; cause = refusal.now })) result }
{
    let mut line = String::new(alloc);
    match write_install_refusal(alloc, extension, refusal, &mut line) {
        Ok(()) => Stop::Refused(line),
        Err(NoMemory) => Stop::NoMemory,
    }
}
