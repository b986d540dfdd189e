// `check`: how many rules a file has.
ghost use Rattle.std.specs.Prelude.{◌≡◌, ◌≢◌, ◌≤◌};
ghost use Rattle.dnr_base.specs.Faults.{Rose};
ghost use Rattle.session_spec.specs.Refusals.{count_line};
ghost use Rattle.session_spec.specs.Words.{check_file};
ghost use Rattle.text_commands.specs.Ends.{EndsWith, MayEndBy, count};

use crate::ending::{stop_with, write_to_end};
use dnr_base::NoMemory;
use dnr_io::{Shelf, Sink, Status};
use explain_report::write_count;
use regex_host::RegexHost;
use rule_spec::RuleKind;
use session_load::load_rules;
use std::alloc::Global;

/// `check KIND RULES`: reads the rules of a file, which are of this kind, and counts them. The host checks their
/// patterns.
pub fn check_rules<F: Shelf, O: Sink, H: RegexHost>(
    alloc: Global,
    kind: RuleKind,
    name: &str,
    shelf: &mut F,
    out: &mut O,
    checker: &mut H,
) -> Status
    requires { F.allows name.now }
    ensures no_usage { result ≢ Status.Usage }
    ensures allowed { MayEndBy (F.Source.files shelf.old) (check_file kind name.now)
        (count (F.Source.faults shelf.old) (F.Source.faults shelf.new))
        (count (F.Source.starts shelf.old) (F.Source.starts shelf.new))
        (count (O.faults out.old) (O.faults out.new)) (count (H.faults checker.old) (H.faults checker.new))
        (F.Source.left shelf.new) (O.taken out.old) (O.taken out.new) result }
    ensures later { H.faults checker.old ≤ H.faults checker.new }
    ensures read_fault { result ≡ Status.ReadFault → Rose (F.Source.faults shelf.old) (F.Source.faults shelf.new) }
    ensures write_fault { result ≡ Status.WriteFault → Rose (O.faults out.old) (O.faults out.new) }
{
    match load_rules(alloc, name, kind, shelf, checker) {
        Ok(rules) => count_rules(alloc, rules.len(), out),
        Err(stop) => stop_with(&stop, out),
    }
}

// Writes how many rules a file has, and says how the run ends.
fn count_rules<O: Sink>(alloc: Global, rules: usize, out: &mut O) -> Status
    ensures { EndsWith (O.taken out.old) (O.taken out.new)
        (count (O.faults out.old) (O.faults out.new)) (count_line rules) result }
{
    let mut text = String::new(alloc);
    match write_count(alloc, rules, &mut text) {
        Ok(()) => write_to_end(text.as_bytes(), Status::Done, out),
        Err(NoMemory) => Status::NoMemory,
    }
}
