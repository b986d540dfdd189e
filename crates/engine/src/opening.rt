//! An engine over files in memory.
ghost use Rattle.std.specs.Prelude.{◌≡◌, map, false, IfOk, IfErr, string_bytes};
ghost use Rattle.std.specs.List.{list_all};
ghost use Rattle.dnr_io.specs.Files.{held_or_empty};
ghost use Rattle.dnr_words.specs.Seen.{installed_seen};
ghost use Rattle.session_spec.specs.Out.{of_rules, of_words};
ghost use Rattle.session_spec.specs.Words.{task_of};
ghost use Rattle.engine.specs.Opening.{are_given, file_of, is_given, is_given_at, EndsFor, EndsOpening, EndsReading, EndsSo};
ghost use Rattle.engine.specs.Opening.{IsOpened, IsOpenedBy, IsRead};

use crate::installing::install;
use crate::{Engine, OpenRefusal};
use dnr_base::NoMemory;
use dnr_io::{FaultlessShelf, MemoryFile};
use dnr_words::{Installed, Serving, Task, read_words};
use regex_host::PackHost;
use session_load::{Stop, load_local, load_serving};
use std::alloc::Global;

// How many bytes of a file are read at a time.
const MOST: usize = 65_536;

impl Engine {
    /// An engine over these files, as the words say that follow the name of the program: those of `serve` or of `match`, and
    /// the state is that before the first line of their script, which is not read. Of files that share a name the first
    /// counts. A file that a manifest names, or a manifest, that is not there is read as one without bytes.
    ///
    /// # Errors
    ///
    /// - `Usage`: the words are not those of `serve` or of `match`.
    /// - `Refused`: a file or an installation is refused, and this line says so.
    /// - `NoFile`: the suffix list, a filter list or the rules file is not there.
    /// - `TooLong`: a file has more bytes than it may have.
    /// - `NoMemory`: memory ran out.
    pub fn open(
        alloc: Global,
        words: &[String],
        files: Vec<MemoryFile>,
    ) -> Result<Engine, OpenRefusal>
        ensures opened { IfOk result (IsOpenedBy (task_of (map string_bytes words.now)) files.items) }
        ensures refused { IfErr result (EndsFor (task_of (map string_bytes words.now)) files.items) }
    {
        match read_words(words) {
            Some(Task::Serve(serving)) => open_serving(alloc, &serving, files),
            Some(Task::Match(rules, _)) => open_rules(alloc, rules, files),
            _ => Err(OpenRefusal::Usage),
        }
    }
}

// The engine of a session that is asked for.
fn open_serving(
    alloc: Global,
    serving: &Serving<'_>,
    files: Vec<MemoryFile>,
) -> Result<Engine, OpenRefusal>
    ensures opened { IfOk result (IsOpened files.items (of_words serving.now)) }
    ensures refused { IfErr result (EndsOpening files.items (of_words serving.now)) }
{
    match names_are_given(alloc, serving, &files) {
        Ok(true) => {}
        Ok(false) => return Err(OpenRefusal::NoFile),
        Err(NoMemory) => return Err(OpenRefusal::NoMemory),
    }
    load_all(alloc, serving, files)
}

// The same where the suffix list and the filter lists are there.
fn load_all(
    alloc: Global,
    serving: &Serving<'_>,
    files: Vec<MemoryFile>,
) -> Result<Engine, OpenRefusal>
    ensures opened { IfOk result (IsRead (held_or_empty files.items) (of_words serving.now)) }
    ensures refused { IfErr result (EndsReading (held_or_empty files.items) (of_words serving.now)) }
{
    let Ok(mut host) = PackHost::new(alloc) else {
        return Err(OpenRefusal::NoMemory);
    };
    let mut shelf = FaultlessShelf::new(files, MOST);
    match load_serving(alloc, serving, &mut shelf, &mut host) {
        Ok(loaded) => install(alloc, loaded),
        Err(stop) => Err(refusal_of(stop)),
    }
}

// The engine of a rules file.
fn open_rules(alloc: Global, rules: &str, files: Vec<MemoryFile>) -> Result<Engine, OpenRefusal>
    ensures opened { IfOk result (IsOpened files.items (of_rules false rules.now)) }
    ensures refused { IfErr result (EndsOpening files.items (of_rules false rules.now)) }
{
    if !has_file(&files, rules) {
        return Err(OpenRefusal::NoFile);
    }
    load_rules(alloc, rules, files)
}

// The same where the file is there.
fn load_rules(alloc: Global, rules: &str, files: Vec<MemoryFile>) -> Result<Engine, OpenRefusal>
    ensures opened { IfOk result (IsRead (held_or_empty files.items) (of_rules false rules.now)) }
    ensures refused { IfErr result (EndsReading (held_or_empty files.items) (of_rules false rules.now)) }
{
    let Ok(mut host) = PackHost::new(alloc) else {
        return Err(OpenRefusal::NoMemory);
    };
    let mut shelf = FaultlessShelf::new(files, MOST);
    match load_local(alloc, rules, &mut shelf, &mut host) {
        Ok(loaded) => install(alloc, loaded),
        Err(stop) => Err(refusal_of(stop)),
    }
}

// What it is to an engine that something is not loaded. A shelf in memory never fails.
fn refusal_of(stop: Stop) -> OpenRefusal
    ensures { EndsSo stop result }
{
    match stop {
        Stop::Refused(line) => OpenRefusal::Refused(line),
        Stop::FileTooLong => OpenRefusal::TooLong,
        Stop::ReadFault | Stop::NoMemory => OpenRefusal::NoMemory,
    }
}

// Whether the suffix list and each filter list of the session are there.
#[tactic(auto, using(crate::proofs::Given::all_given, crate::proofs::Given::suffixes_lack))]
fn names_are_given(
    alloc: Global,
    serving: &Serving<'_>,
    files: &[MemoryFile],
) -> Result<bool, NoMemory>
    ensures { IfOk result (λ given. are_given files.now (of_words serving.now) ≡ given) }
{
    if !suffixes_are_given(serving, files) {
        return Ok(false);
    }
    let installed = serving.installed(alloc)?;
    Ok(lists_are_given(&installed, files))
}

fn suffixes_are_given(serving: &Serving<'_>, files: &[MemoryFile]) -> bool
    ensures { result ≡ is_given_at files.now serving.now.suffixes }
{
    match serving.suffixes() {
        Some(name) => has_file(files, name),
        None => true,
    }
}

fn lists_are_given(installed: &[Installed<'_>], files: &[MemoryFile]) -> bool
    ensures { result ≡ list_all (λ one. is_given_at files.now (file_of (installed_seen one))) installed.now }
{
    installed.iter().all(|one| is_there(files, one))
}

// Whether the file of what is installed is there, if it has one of its own.
fn is_there(files: &[MemoryFile], installed: &Installed<'_>) -> bool
    ensures { result ≡ is_given_at files.now (file_of (installed_seen installed.now)) }
{
    match installed {
        Installed::Folder(_) => true,
        Installed::List(_, file) => has_file(files, file),
    }
}

fn has_file(files: &[MemoryFile], name: &str) -> bool
    ensures { result ≡ is_given files.now name.now }
{
    files.iter().any(|file| file.name.as_str() == name)
}
