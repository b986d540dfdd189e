//! Filter lists.
ghost use Rattle.std.specs.Prelude.{◌≡◌, ◌≢◌, ◌≤◌, map, length, Err, IfOk, IfErr};
ghost use Rattle.dnr_base.specs.Faults.{Rose, HasCauseOf};
ghost use Rattle.json_spec.specs.RulesFile.{max_file};
ghost use Rattle.session_load.specs.Lists.{IsCompiledList};
ghost use Rattle.session_load.specs.Loads.{PrintsBadList, StopsInList};
ghost use Rattle.session_load.specs.Stops.{Prints, StopsAs};
ghost use Rattle.session_load.specs.Tells.{TellsList};
ghost use Rattle.session_spec.specs.Refusals.{too_many_rules, host_failed, list_line};

use crate::Stop;
use crate::files::load_file;
use abp_compile::{CompileRefusal, Report, compile};
use dnr_base::NoMemory;
use dnr_io::Shelf;
use dnr_rules::Rule;
use explain_report::{write_list_fault, write_too_many_rules};
use regex_host::RegexHost;
use std::alloc::Global;

/// A filter list as rules, and what is told of it.
#[derive(Debug, Drop)]
pub struct CompiledList {
    /// The rules, with ids from 1.
    pub rules: Vec<Rule>,
    /// The lines that give nothing, and the lines that each rule comes from.
    pub report: Report,
}

/// Reads a filter list and compiles it. The host checks its regular expressions.
///
/// # Errors
///
/// - `Refused`: the list gives more than 300,000 rules, or the host failed at a regular expression, and its count of faults
///   rose in this call.
/// - `ReadFault`: the shelf failed, and its count of faults rose.
/// - `FileTooLong`: the file has more bytes than a list may have.
/// - `NoMemory`: memory ran out.
pub fn load_list<F: Shelf, H: RegexHost>(
    alloc: Global,
    name: &str,
    shelf: &mut F,
    host: &mut H,
) -> Result<CompiledList, Stop>
    requires { F.allows name.now }
    ensures list { IfOk result (TellsList (F.Source.files shelf.old) name.now) }
    ensures stops { IfErr result (StopsInList (F.Source.files shelf.old)
        (Rose (H.faults host.old) (H.faults host.new)) name.now) }
    ensures files { F.Source.files shelf.new ≡ F.Source.files shelf.old }
    ensures left { F.Source.left shelf.new ≡ F.Source.left shelf.old }
    ensures starts { F.Source.starts shelf.new ≡ F.Source.starts shelf.old }
    ensures later { H.faults host.old ≤ H.faults host.new }
    ensures cause { HasCauseOf Stop.ReadFault (F.Source.faults shelf.old) (F.Source.faults shelf.new) result }
{
    match load_file(alloc, name, shelf) {
        Ok(bytes) => list_in(alloc, name, &bytes, host),
        Err(stop) => Err(stop),
    }
}

// The list of these bytes, which are those of the file of this name.
fn list_in<H: RegexHost>(
    alloc: Global,
    name: &str,
    bytes: &[u8],
    host: &mut H,
) -> Result<CompiledList, Stop>
    requires { length bytes.now ≤ max_file }
    ensures list { IfOk result (IsCompiledList bytes.now) }
    ensures stops { IfErr result (StopsAs
        (PrintsBadList (Rose (H.faults host.old) (H.faults host.new)) name.now bytes.now) ⊥) }
    ensures no_fault { result ≢ Err Stop.ReadFault }
    ensures later { H.faults host.old ≤ H.faults host.new }
{
    match compile(alloc, bytes, host) {
        Ok((rules, report)) => Ok(CompiledList { rules, report }),
        Err(CompileRefusal::TooManyRules(count)) => Err(too_many(alloc, name, count)),
        Err(CompileRefusal::HostFault(line)) => Err(failed(alloc, name, line)),
        Err(CompileRefusal::NoMemory) => Err(Stop::NoMemory),
    }
}

/// Why a command stops at a file that gives so many rules or lines, which are too many: the line that says so, or want of
/// memory for it.
pub fn too_many(alloc: Global, name: &str, count: usize) -> Stop
    ensures { Prints (list_line name.now (too_many_rules count)) result }
{
    let mut line = String::new(alloc);
    match write_too_many_rules(alloc, name, count, &mut line) {
        Ok(()) => Stop::Refused(line),
        Err(NoMemory) => Stop::NoMemory,
    }
}

fn failed(alloc: Global, name: &str, number: u32) -> Stop
    ensures { Prints (list_line name.now (host_failed number)) result }
{
    let mut line = String::new(alloc);
    match write_list_fault(alloc, name, number, &mut line) {
        Ok(()) => Stop::Refused(line),
        Err(NoMemory) => Stop::NoMemory,
    }
}
