//! The engine in which all that was loaded is installed.
ghost use Rattle.std.specs.Prelude.{◌≡◌, IfOk, IfErr, string_bytes};
ghost use Rattle.session_load.specs.Stops.{Prints};
ghost use Rattle.session_spec.specs.Refusals.{install_line};
ghost use Rattle.engine.specs.Opening.{EndsInstalling, IsInstalled, PrintsLine};

use crate::{Engine, OpenRefusal};
use dnr_base::NoMemory;
use explain_report::write_install_refusal;
use generation::{FirstRefusal, Generation};
use session_load::Loaded;
use std::alloc::Global;
use update_spec::Refusal;

/// Installs what was loaded, in its order.
pub(crate) fn install(alloc: Global, loaded: Loaded) -> Result<Engine, OpenRefusal>
    ensures opened { IfOk result (IsInstalled loaded) }
    ensures refused { IfErr result (EndsInstalling loaded) }
{
    match Generation::first(alloc, loaded.suffixes, loaded.extensions) {
        Ok(generation) => match Engine::new(alloc, generation) {
            Ok(engine) => Ok(engine),
            Err(NoMemory) => Err(OpenRefusal::NoMemory),
        },
        Err(FirstRefusal::Refused(name, refusal)) => Err(refused(alloc, name.as_str(), &refusal)),
        Err(FirstRefusal::NoMemory) => Err(OpenRefusal::NoMemory),
    }
}

// The line that says why an extension is not installed, unless memory runs out for it.
fn refused(alloc: Global, extension: &str, refusal: &Refusal) -> OpenRefusal
    ensures { PrintsLine (install_line (record { extension = extension.now; cause = refusal.now })) result }
{
    let mut line = String::new(alloc);
    match write_install_refusal(alloc, extension, refusal, &mut line) {
        Ok(()) => OpenRefusal::Refused(line),
        Err(NoMemory) => OpenRefusal::NoMemory,
    }
}
