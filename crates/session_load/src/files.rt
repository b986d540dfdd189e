//! The bytes of a file.
ghost use Rattle.std.specs.Prelude.{◌≡◌, ◌≤◌, length, IfOk, IfErr};
ghost use Rattle.dnr_base.specs.Faults.{HasCauseOf};
ghost use Rattle.json_spec.specs.RulesFile.{max_file};
ghost use Rattle.session_load.specs.Loads.{StopsInFile};
ghost use Rattle.session_load.specs.Tells.{TellsFile};

use crate::Stop;
use dnr_io::{Shelf, ShelfRefusal};
use rules_file::MAX_FILE;
use std::alloc::Global;

impl From<ShelfRefusal> for Stop {
    ghost use Rattle.std.specs.Prelude.{◌≡◌};
    ghost use Rattle.session_load.specs.Files.{stop_of};

    ghost from_gives = { λ refusal stop. stop ≡ stop_of refusal };

    fn from(refusal: ShelfRefusal) -> Stop {
        match refusal {
            ShelfRefusal::Failed => Stop::ReadFault,
            ShelfRefusal::TooLong => Stop::FileTooLong,
            ShelfRefusal::NoMemory => Stop::NoMemory,
        }
    }
}

/// The bytes of the file of this name, which are not more than a file may have.
///
/// # Errors
///
/// - `ReadFault`: the shelf failed, and its count of faults rose.
/// - `FileTooLong`: the file has more bytes than a file may have.
/// - `NoMemory`: memory ran out.
pub fn load_file<F: Shelf>(alloc: Global, name: &str, shelf: &mut F) -> Result<Vec<u8>, Stop>
    requires { F.allows name.now }
    ensures held { IfOk result (TellsFile (F.Source.files shelf.old) name.now) }
    ensures short { IfOk result (λ bytes. length bytes.items ≤ max_file) }
    ensures stops { IfErr result (StopsInFile (F.Source.files shelf.old) name.now) }
    ensures files { F.Source.files shelf.new ≡ F.Source.files shelf.old }
    ensures left { F.Source.left shelf.new ≡ F.Source.left shelf.old }
    ensures starts { F.Source.starts shelf.new ≡ F.Source.starts shelf.old }
    ensures cause { HasCauseOf Stop.ReadFault (F.Source.faults shelf.old) (F.Source.faults shelf.new) result }
{
    let mut bytes = Vec::new(alloc);
    shelf.fetch(name, MAX_FILE, &mut bytes)?;
    Ok(bytes)
}
