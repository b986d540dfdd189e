// `compile`: a filter list as rules.
ghost use Rattle.std.specs.Prelude.{◌≡◌, ◌≢◌, ◌≤◌, ◌++◌, IfOk, string_bytes};
ghost use Rattle.dnr_base.specs.Faults.{Rose};
ghost use Rattle.session_spec.specs.Refusals.{count_line, unsupported_lines};
ghost use Rattle.session_spec.specs.Words.{compile_file};
ghost use Rattle.text_commands.specs.Ends.{EndsWith, MayEndBy, count};
ghost use Rattle.text_commands.specs.Texts as texts;

use crate::ending::{stop_with, write_to_end};
use compile_spec::Reported;
use dnr_base::NoMemory;
use dnr_io::{Shelf, Sink, Status};
use explain_report::{write_count, write_unsupported};
use regex_host::RegexHost;
use rule_write::write_rules;
use session_load::{CompiledList, load_list};
use std::alloc::Global;

/// `compile LIST`: reads a filter list, and prints the rules that say what it says. The host checks its regular
/// expressions.
pub fn compile_list<F: Shelf, O: Sink, H: RegexHost>(
    alloc: Global,
    name: &str,
    shelf: &mut F,
    out: &mut O,
    checker: &mut H,
) -> Status
    requires { F.allows name.now }
    ensures no_usage { result ≢ Status.Usage }
    ensures allowed { MayEndBy (F.Source.files shelf.old) (compile_file name.now)
        (count (F.Source.faults shelf.old) (F.Source.faults shelf.new))
        (count (F.Source.starts shelf.old) (F.Source.starts shelf.new))
        (count (O.faults out.old) (O.faults out.new)) (count (H.faults checker.old) (H.faults checker.new))
        (F.Source.left shelf.new) (O.taken out.old) (O.taken out.new) result }
    ensures later { H.faults checker.old ≤ H.faults checker.new }
    ensures read_fault { result ≡ Status.ReadFault → Rose (F.Source.faults shelf.old) (F.Source.faults shelf.new) }
    ensures write_fault { result ≡ Status.WriteFault → Rose (O.faults out.old) (O.faults out.new) }
{
    match load_list(alloc, name, shelf, checker) {
        Ok(list) => print_list(alloc, &list, out),
        Err(stop) => stop_with(&stop, out),
    }
}

// Writes a compiled list, and says how the run ends.
fn print_list<O: Sink>(alloc: Global, list: &CompiledList, out: &mut O) -> Status
    ensures { EndsWith (O.taken out.old) (O.taken out.new)
        (count (O.faults out.old) (O.faults out.new)) (texts.text_of list.now) result }
{
    match text_of(alloc, list) {
        Ok(text) => write_to_end(&text, Status::Done, out),
        Err(NoMemory) => Status::NoMemory,
    }
}

// The text of a compiled list: each line that gives nothing, the count of the rules, and the rules as JSON.
fn text_of(alloc: Global, list: &CompiledList) -> Result<Vec<u8>, NoMemory>
    ensures { IfOk result (λ text. text.items ≡ texts.text_of list.now) }
{
    let head = head_of(alloc, list.report.lines.as_slice(), list.rules.len())?;
    let mut text = head.into_bytes();
    text.extend_from_slice(&write_rules(alloc, &list.rules)?)?;
    text.push(b'\n')?;
    Ok(text)
}

#[tactic(auto, using(crate::proofs::Listed::one_more_unsupported, crate::proofs::Listed::all_unsupported))]
fn head_of(alloc: Global, reported: &[Reported], rules: usize) -> Result<String, NoMemory>
    ensures { IfOk result (λ head. string_bytes head ≡ unsupported_lines reported.now ++ count_line rules) }
{
    let mut head = String::new(alloc);
    for one in reported {
        write_unsupported(alloc, one, &mut head)?;
    }
    write_count(alloc, rules, &mut head)?;
    Ok(head)
}
