// `prune`: which rules of a file another rule makes needless.
ghost use Rattle.std.specs.Prelude.{◌≡◌, ◌≢◌, ◌≤◌, ◌++◌, length, codes, IfErr, IfOk, string_bytes};
ghost use Rattle.dnr_base.specs.Faults.{Rose};
ghost use Rattle.json_spec.specs.Written.{written as json_text};
ghost use Rattle.prune_spec.specs.Pruned.{IdsDiffer};
ghost use Rattle.session_spec.specs.Pruning.{pruned_text, removed_lines};
ghost use Rattle.session_spec.specs.Refusals.{count_line};
ghost use Rattle.session_spec.specs.Words.{prune_file};
ghost use Rattle.text_commands.specs.Ends.{EndsAtOnce, MayEndBy, count};
ghost use Rattle.text_commands.specs.Texts.{CountsTooMany, HoldsTooMany, ShowsRest};

use crate::ending::{stop_with, write_to_end};
use dnr_base::NoMemory;
use dnr_io::{Shelf, Sink, Status};
use dnr_rules::Rule;
use explain_report::{write_count, write_removed};
use prune_spec::{PruneRefusal, Shadow};
use regex_host::RegexHost;
use rule_prune::{check, find};
use rule_spec::RuleKind;
use rule_write::write_rules;
use session_load::{load_rules, too_many};
use std::alloc::Global;

/// `prune RULES`: reads the static rules of a file, and leaves out each that another rule makes needless. It prints which
/// these are and by which rules, and the rules that are left. The host checks their patterns.
pub fn prune_rules<F: Shelf, O: Sink, H: RegexHost>(
    alloc: Global,
    name: &str,
    shelf: &mut F,
    out: &mut O,
    checker: &mut H,
) -> Status
    requires { F.allows name.now }
    ensures no_usage { result ≢ Status.Usage }
    ensures allowed { MayEndBy (F.Source.files shelf.old) (prune_file name.now)
        (count (F.Source.faults shelf.old) (F.Source.faults shelf.new))
        (count (F.Source.starts shelf.old) (F.Source.starts shelf.new))
        (count (O.faults out.old) (O.faults out.new)) (count (H.faults checker.old) (H.faults checker.new))
        (F.Source.left shelf.new) (O.taken out.old) (O.taken out.new) result }
    ensures later { H.faults checker.old ≤ H.faults checker.new }
    ensures read_fault { result ≡ Status.ReadFault → Rose (F.Source.faults shelf.old) (F.Source.faults shelf.new) }
    ensures write_fault { result ≡ Status.WriteFault → Rose (O.faults out.old) (O.faults out.new) }
{
    match load_rules(alloc, name, RuleKind::Static, shelf, checker) {
        Ok(rules) => print_rest(alloc, name, &rules, out),
        Err(stop) => stop_with(&stop, out),
    }
}

// Writes what is left of the rules, or that they are too many, and says how the run ends.
fn print_rest<O: Sink>(alloc: Global, name: &str, rules: &[Rule], out: &mut O) -> Status
    requires { IdsDiffer rules.now }
    ensures { EndsAtOnce (ShowsRest rules.now) (HoldsTooMany name.now rules.now)
        (O.taken out.old) (O.taken out.new) (count (O.faults out.old) (O.faults out.new)) result }
{
    match text_of(alloc, rules) {
        Ok(text) => write_to_end(&text, Status::Done, out),
        Err(PruneRefusal::TooManyRules(count)) => stop_with(&too_many(alloc, name, count), out),
        Err(PruneRefusal::NoMemory) => Status::NoMemory,
    }
}

// What `prune` prints of rules that are not too many.
fn text_of(alloc: Global, rules: &[Rule]) -> Result<Vec<u8>, PruneRefusal>
    requires { IdsDiffer rules.now }
    ensures text { IfOk result (λ text. ShowsRest rules.now text.items) }
    ensures refused { IfErr result (CountsTooMany rules.now) }
{
    let removals = find(alloc, rules)?;
    let Ok(rest) = check(alloc, rules, &removals) else {
        return Err(PruneRefusal::NoMemory);
    };
    match rest_text(alloc, &removals, &rest) {
        Ok(text) => Ok(text),
        Err(NoMemory) => Err(PruneRefusal::NoMemory),
    }
}

// The removals, the count of the rest, and the rest.
fn rest_text(alloc: Global, removals: &[Shadow], rest: &[Rule]) -> Result<Vec<u8>, NoMemory>
    ensures { IfOk result (λ text. text.items
        ≡ removed_lines removals.now ++ (count_line (length rest.now) ++ (json_text rest.now ++ codes "\n"))) }
{
    let head = head_of(alloc, removals, rest.len())?;
    let mut text = head.into_bytes();
    text.extend_from_slice(&write_rules(alloc, rest)?)?;
    text.push(b'\n')?;
    Ok(text)
}

#[tactic(auto, using(crate::proofs::Listed::one_more_removed, crate::proofs::Listed::all_removed))]
fn head_of(alloc: Global, removals: &[Shadow], rules: usize) -> Result<String, NoMemory>
    ensures { IfOk result (λ head. string_bytes head ≡ removed_lines removals.now ++ count_line rules) }
{
    let mut head = String::new(alloc);
    for one in removals {
        write_removed(alloc, one, &mut head)?;
    }
    write_count(alloc, rules, &mut head)?;
    Ok(head)
}
