//! The suffix list by which first and third party are told.
ghost use Rattle.std.specs.Prelude.{◌≡◌, ◌≢◌, ◌≤◌, [], length, Ok, Err, IfOk, IfErr, IfSome, option_copied};
ghost use Rattle.dnr_base.specs.Faults.{HasCauseOf};
ghost use Rattle.dnr_spec.specs.Suffixes.{read_suffixes};
ghost use Rattle.json_spec.specs.RulesFile.{max_file};
ghost use Rattle.session_load.specs.Loads.{PrintsBadSuffixes, StopsInSuffixes, StopsInSuffixFile};
ghost use Rattle.session_load.specs.Stops.{Prints, StopsAs};
ghost use Rattle.session_load.specs.Tells.{TellsSuffixes, TellsSuffixFile};
ghost use Rattle.session_spec.specs.Refusals.{suffixes_line};

use crate::Stop;
use crate::files::load_file;
use dnr_base::NoMemory;
use dnr_io::Shelf;
use dnr_spec::SuffixRefusal;
use explain_report::write_suffix_refusal;
use std::alloc::Global;
use suffix_list::SuffixList;

// The list of this file, or one without rules where no file is named.
pub(crate) fn load_suffixes<F: Shelf>(
    alloc: Global,
    name: Option<&str>,
    shelf: &mut F,
) -> Result<SuffixList, Stop>
    requires { IfSome (option_copied name) F.allows }
    ensures suffixes { IfOk result (TellsSuffixes (F.Source.files shelf.old) (option_copied name.entry)) }
    ensures stops { IfErr result (StopsInSuffixes (F.Source.files shelf.old) (option_copied name.entry)) }
    ensures files { F.Source.files shelf.new ≡ F.Source.files shelf.old }
    ensures left { F.Source.left shelf.new ≡ F.Source.left shelf.old }
    ensures starts { F.Source.starts shelf.new ≡ F.Source.starts shelf.old }
    ensures cause { HasCauseOf Stop.ReadFault (F.Source.faults shelf.old) (F.Source.faults shelf.new) result }
{
    match name {
        Some(name) => load_suffix_file(alloc, name, shelf),
        None => match no_suffixes(alloc) {
            Ok(list) => Ok(list),
            Err(NoMemory) => Err(Stop::NoMemory),
        },
    }
}

fn load_suffix_file<F: Shelf>(alloc: Global, name: &str, shelf: &mut F) -> Result<SuffixList, Stop>
    requires { F.allows name.now }
    ensures suffixes { IfOk result (TellsSuffixFile (F.Source.files shelf.old) name.now) }
    ensures stops { IfErr result (StopsInSuffixFile (F.Source.files shelf.old) name.now) }
    ensures files { F.Source.files shelf.new ≡ F.Source.files shelf.old }
    ensures left { F.Source.left shelf.new ≡ F.Source.left shelf.old }
    ensures starts { F.Source.starts shelf.new ≡ F.Source.starts shelf.old }
    ensures cause { HasCauseOf Stop.ReadFault (F.Source.faults shelf.old) (F.Source.faults shelf.new) result }
{
    match load_file(alloc, name, shelf) {
        Ok(bytes) => suffixes_in(alloc, name, &bytes),
        Err(stop) => Err(stop),
    }
}

// The list of these bytes, which are those of the file of this name.
fn suffixes_in(alloc: Global, name: &str, bytes: &[u8]) -> Result<SuffixList, Stop>
    requires { length bytes.now ≤ max_file }
    ensures read { IfOk result (λ list. read_suffixes bytes.now ≡ Ok list) }
    ensures stops { IfErr result (StopsAs (PrintsBadSuffixes name.now bytes.now) ⊥) }
    ensures no_fault { result ≢ Err Stop.ReadFault }
{
    match SuffixList::read(alloc, bytes) {
        Ok(list) => Ok(list),
        Err(SuffixRefusal::NoMemory) => Err(Stop::NoMemory),
        Err(refusal) => Err(refused(alloc, name, refusal)),
    }
}

// The line that says why, unless memory runs out for it.
fn refused(alloc: Global, name: &str, refusal: SuffixRefusal) -> Stop
    ensures { Prints (suffixes_line name.now refusal) result }
{
    let mut line = String::new(alloc);
    match write_suffix_refusal(alloc, name, refusal, &mut line) {
        Ok(()) => Stop::Refused(line),
        Err(NoMemory) => Stop::NoMemory,
    }
}

// A list without rules.
#[tactic(auto, using(crate::proofs::NoSuffixes::no_rules))]
pub(crate) fn no_suffixes(alloc: Global) -> Result<SuffixList, NoMemory>
    ensures { IfOk result (λ list. list ≡ []) }
{
    match SuffixList::read(alloc, b"") {
        Ok(list) => Ok(list),
        Err(_) => Err(NoMemory),
    }
}
