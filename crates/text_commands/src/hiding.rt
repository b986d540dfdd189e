// `hide`: what a page hides by a filter list.
ghost use Rattle.std.specs.Prelude.{◌≡◌, ◌≢◌, ◌≤◌, ◌++◌, length, IfOk, string_bytes};
ghost use Rattle.dnr_base.specs.Faults.{Rose};
ghost use Rattle.hide_spec.specs.Hidden.{hidden_by};
ghost use Rattle.json_spec.specs.RulesFile.{max_file};
ghost use Rattle.list_spec.specs.LineKind.{lines_of};
ghost use Rattle.session_spec.specs.Hiding.{selectors_line, unhidden_lines};
ghost use Rattle.session_spec.specs.Words.{hide_page};
ghost use Rattle.text_commands.specs.Ends.{EndsAtOnce, EndsWith, MayEndAlone, count};
ghost use Rattle.text_commands.specs.Texts.{HidesTooMany, ShowsPage};

use crate::ending::{stop_with, write_to_end};
use dnr_base::NoMemory;
use dnr_io::{Shelf, Sink, Status};
use explain_report::{write_selectors, write_unhidden};
use hide_rules::{HideList, HideRefusal};
use hide_spec::HideReported;
use session_load::{load_file, too_many};
use std::alloc::Global;

/// `hide LIST HOST`: reads a filter list, and prints the selectors that a page of the host hides. Lines that are for
/// hiding and are not used are told first.
pub fn hide_page<F: Shelf, O: Sink>(
    alloc: Global,
    name: &str,
    host: &str,
    shelf: &mut F,
    out: &mut O,
) -> Status
    requires { F.allows name.now }
    ensures no_usage { result ≢ Status.Usage }
    ensures allowed { MayEndAlone (F.Source.files shelf.old) (hide_page name.now host.now)
        (count (F.Source.faults shelf.old) (F.Source.faults shelf.new))
        (count (F.Source.starts shelf.old) (F.Source.starts shelf.new))
        (count (O.faults out.old) (O.faults out.new))
        (F.Source.left shelf.new) (O.taken out.old) (O.taken out.new) result }
    ensures read_fault { result ≡ Status.ReadFault → Rose (F.Source.faults shelf.old) (F.Source.faults shelf.new) }
    ensures write_fault { result ≡ Status.WriteFault → Rose (O.faults out.old) (O.faults out.new) }
{
    match load_file(alloc, name, shelf) {
        Ok(bytes) => hide_by(alloc, name, &bytes, host, out),
        Err(stop) => stop_with(&stop, out),
    }
}

// What the list of these bytes hides, or that it has too many lines.
fn hide_by<O: Sink>(alloc: Global, name: &str, bytes: &[u8], host: &str, out: &mut O) -> Status
    requires { length bytes.now ≤ max_file }
    ensures { EndsAtOnce (ShowsPage (lines_of bytes.now) host.now) (HidesTooMany name.now (lines_of bytes.now))
        (O.taken out.old) (O.taken out.new) (count (O.faults out.old) (O.faults out.new)) result }
{
    match HideList::read(alloc, bytes) {
        Ok((list, reported)) => print_page(alloc, &list, &reported, host, out),
        Err(HideRefusal::TooManyLines(count)) => stop_with(&too_many(alloc, name, count), out),
        Err(HideRefusal::NoMemory) => Status::NoMemory,
    }
}

// Writes what a page hides, and says how the run ends.
fn print_page<O: Sink>(
    alloc: Global,
    list: &HideList,
    reported: &[HideReported],
    host: &str,
    out: &mut O,
) -> Status
    ensures { EndsWith (O.taken out.old) (O.taken out.new) (count (O.faults out.old) (O.faults out.new))
        (unhidden_lines reported.now ++ selectors_line host.now (hidden_by list.now host.now)) result }
{
    match page_text(alloc, list, reported, host) {
        Ok(text) => write_to_end(text.as_bytes(), Status::Done, out),
        Err(NoMemory) => Status::NoMemory,
    }
}

#[tactic(auto, using(crate::proofs::Listed::one_more_unhidden, crate::proofs::Listed::all_unhidden))]
fn page_text(
    alloc: Global,
    list: &HideList,
    reported: &[HideReported],
    host: &str,
) -> Result<String, NoMemory>
    ensures { IfOk result (λ text. string_bytes text
        ≡ unhidden_lines reported.now ++ selectors_line host.now (hidden_by list.now host.now)) }
{
    let mut text = String::new(alloc);
    for one in reported {
        write_unhidden(alloc, one, &mut text)?;
    }
    let selectors = list.selectors(alloc, host)?;
    write_selectors(alloc, host, &selectors, &mut text)?;
    Ok(text)
}
