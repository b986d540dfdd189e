//! The program `dnr`: the engine over the files of the current folder and standard output.
#![tactic(auto)]

ghost use Rattle.std.specs.Prelude.{◌≡◌, length, IfOk, IsTrue};

use dnr_base::NoMemory;
use dnr_io::{DirShelf, Output, Sink, Status};
use dnr_top::run;
use keep_file::FileDisk;
use keep_run::run_keep;
use lookup_pool::NoGate;
use regex_host::PackHost;
use session_laws::nine_hosts_are_enough;
use std::alloc::Global;
use std::env::Env;
use std::io;
use std::process::ExitCode;
use std::rt::Files;

// At most so many workers decide requests, each by a host of its own.
const WORKERS: usize = 8;

// How many built patterns such a host keeps.
const ROOM: usize = 1_024;

fn main(rt: HostRuntime) -> ExitCode {
    let mut out = Output::new(rt.stdout());
    let status = match words_of(&rt) {
        Ok(words) if asks_to_keep(&words) => keep(&rt, &words, &mut out),
        Ok(words) => match hosts_of(rt.alloc()) {
            Ok(mut hosts) => {
                let mut shelf = DirShelf::new(&rt);
                nine_hosts_are_enough();
                run(
                    &rt,
                    rt.alloc(),
                    &words,
                    &mut shelf,
                    &mut out,
                    &mut hosts,
                    &NoGate,
                )
            }
            Err(NoMemory) => Status::NoMemory,
        },
        Err(status) => status,
    };
    ExitCode::from(status.value())
}

// Whether there are four words, and the first is `keep`.
fn asks_to_keep(words: &[String]) -> bool
    ensures { IsTrue result → length words.now ≡ 4 }
{
    words.len() == 4 && words[0].as_str() == "keep"
}

// Keeps dynamic rules in a file.
fn keep(rt: &(impl Files + AllocGlobal), words: &[String], out: &mut impl Sink) -> Status
    requires { length words.now ≡ 4 }
{
    let Ok(mut host) = PackHost::new(rt.alloc()) else {
        return Status::NoMemory;
    };
    let mut shelf = DirShelf::new(rt);
    let mut disk = FileDisk::new(rt, words[1].as_str());
    run_keep(rt.alloc(), words, &mut shelf, out, &mut host, &mut disk)
}

// The words after the program's name. A word that is no text makes a command that no words say.
fn words_of(rt: &(impl Env + AllocGlobal)) -> Result<Vec<String>, Status> {
    let mut words = Vec::new(rt.alloc());
    for word in std::env::args(rt).map_err(status_of)?.skip(1) {
        if words.push(word).is_err() {
            return Err(Status::NoMemory);
        }
    }
    Ok(words)
}

fn status_of(error: io::Error) -> Status {
    if error.kind() == io::ErrorKind::OutOfMemory {
        Status::NoMemory
    } else {
        Status::Usage
    }
}

// A host that checks the patterns of files and of lines, and one for each worker.
fn hosts_of(alloc: Global) -> Result<Vec<PackHost>, NoMemory>
    ensures { IfOk result (λ hosts. length hosts.items ≡ 9) }
{
    let mut hosts = Vec::new(alloc);
    hosts.push(PackHost::new(alloc)?)?;
    for _ in 0..WORKERS {
        hosts.push(PackHost::with_room(alloc, ROOM)?)?;
    }
    Ok(hosts)
}
