//! All that the words of a session name.
ghost use Rattle.std.specs.Prelude.{◌≡◌, ◌≤◌, map, IfOk, IfErr};
ghost use Rattle.dnr_base.specs.Faults.{Rose, HasCauseOf};
ghost use Rattle.dnr_words.specs.Seen.{installed_seen};
ghost use Rattle.session_load.specs.Asked.{MayAskAll, MayAskServing};
ghost use Rattle.session_load.specs.Loads.{StopsInServing, StopsInExtensions};
ghost use Rattle.session_load.specs.Tells.{TellsAll, TellsServing};

use crate::installed::load_one;
use crate::suffixes::load_suffixes;
use crate::{Loaded, Stop};
use dnr_io::Shelf;
use dnr_words::{Installed, Serving};
use regex_host::RegexHost;
use ruleset_store::Extension;
use std::alloc::Global;

/// Reads what a session names before its script: the suffix list, and then each extension whole, in the order of the
/// words. The host checks patterns.
///
/// # Errors
///
/// The first file that is not read ends the reading:
///
/// - `Refused`: it breaks its form, or the host failed at a pattern of it, and its count of faults rose in this call.
/// - `ReadFault`: the shelf failed, and its count of faults rose.
/// - `FileTooLong`: it has more bytes than a file may have.
///
/// Or `NoMemory`, where memory ran out.
pub fn load_serving<F: Shelf, H: RegexHost>(
    alloc: Global,
    serving: &Serving<'_>,
    shelf: &mut F,
    host: &mut H,
) -> Result<Loaded, Stop>
    requires { MayAskServing F.allows (F.Source.files shelf.old) serving.now }
    ensures loads { IfOk result (TellsServing (F.Source.files shelf.old) serving.now) }
    ensures stops { IfErr result (StopsInServing (F.Source.files shelf.old)
        (Rose (H.faults host.old) (H.faults host.new)) serving.now) }
    ensures files { F.Source.files shelf.new ≡ F.Source.files shelf.old }
    ensures left { F.Source.left shelf.new ≡ F.Source.left shelf.old }
    ensures starts { F.Source.starts shelf.new ≡ F.Source.starts shelf.old }
    ensures later { H.faults host.old ≤ H.faults host.new }
    ensures cause { HasCauseOf Stop.ReadFault (F.Source.faults shelf.old) (F.Source.faults shelf.new) result }
{
    let installed = serving.installed(alloc)?;
    let suffixes = load_suffixes(alloc, serving.suffixes(), shelf)?;
    let extensions = load_extensions(alloc, &installed, shelf, host)?;
    Ok(Loaded {
        suffixes,
        extensions,
    })
}

// Reads the extensions, one after another.
#[tactic(auto, using(crate::proofs::Read::extensions_begin, crate::proofs::Read::extensions_go, crate::proofs::Read::extensions_end, crate::proofs::Stopped::rose_since))]
fn load_extensions<F: Shelf, H: RegexHost>(
    alloc: Global,
    installed: &[Installed<'_>],
    shelf: &mut F,
    host: &mut H,
) -> Result<Vec<Extension>, Stop>
    requires { MayAskAll F.allows (F.Source.files shelf.old) (map installed_seen installed.now) }
    ensures reads { IfOk result (TellsAll (F.Source.files shelf.old) (map installed_seen installed.now)) }
    ensures stops { IfErr result (StopsInExtensions (F.Source.files shelf.old)
        (Rose (H.faults host.old) (H.faults host.new)) (map installed_seen installed.now)) }
    ensures files { F.Source.files shelf.new ≡ F.Source.files shelf.old }
    ensures left { F.Source.left shelf.new ≡ F.Source.left shelf.old }
    ensures starts { F.Source.starts shelf.new ≡ F.Source.starts shelf.old }
    ensures later { H.faults host.old ≤ H.faults host.new }
    ensures cause { HasCauseOf Stop.ReadFault (F.Source.faults shelf.old) (F.Source.faults shelf.new) result }
{
    let mut all = Vec::with_capacity(alloc, installed.len())?;
    for one in installed {
        let extension = load_one(alloc, one, shelf, host)?;
        all.push(extension)?;
    }
    Ok(all)
}
