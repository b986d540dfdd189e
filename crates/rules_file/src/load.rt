// A rules file on a shelf.
ghost use Rattle.std.specs.Prelude.{◌≡◌, ◌≤◌, Ok, IfOk, IfErr, IfSome};
ghost use Rattle.dnr_base.specs.Faults.{Rose, HasCauseOf};
ghost use Rattle.json_spec.specs.RulesFile as spec;
ghost use Rattle.load_spec.specs.Files.{HoldsRules};
ghost use Rattle.rules_file.specs.Load.{AreRead, IsCalmLoad, IsNoMemoryApart, IsStopped, Refuses, is_memory};

use crate::{FileRefusal, read_rules_file};
use dnr_io::{Shelf, ShelfRefusal};
use regex_host::RegexHost;
use rule_read::{Rule, RuleKind, RuleRefusal};
use std::alloc::Global;

/// The most bytes of a file of rules, and of a manifest that names such files.
pub const MAX_FILE: u64 = 33_554_432;

/// Why a rules file is not loaded.
#[derive(Debug, Drop)]
pub enum LoadRefusal {
    /// The file is refused. Its cause is not want of memory.
    BadFile(FileRefusal),
    /// The shelf failed, and its count of faults rose.
    ReadFault,
    /// The file has more bytes than a rules file may have.
    FileTooLong,
    /// Memory ran out.
    NoMemory,
}

impl From<ShelfRefusal> for LoadRefusal {
    ghost use Rattle.rules_file.specs.Load.{load_refusal};

    ghost from_gives = { λ refusal e. e ≡ load_refusal refusal };

    fn from(refusal: ShelfRefusal) -> LoadRefusal {
        match refusal {
            ShelfRefusal::Failed => LoadRefusal::ReadFault,
            ShelfRefusal::TooLong => LoadRefusal::FileTooLong,
            ShelfRefusal::NoMemory => LoadRefusal::NoMemory,
        }
    }
}

/// Reads the rules of a file. It is read whole before its form is looked at, so a file that is too long is
/// told as such whatever it holds.
pub fn load_rules<F: Shelf, H: RegexHost>(
    alloc: Global,
    name: &str,
    kind: RuleKind,
    shelf: &mut F,
    host: &mut H,
) -> Result<Vec<Rule>, LoadRefusal>
    requires { F.allows name.now }
    ensures ok { IfOk result (λ rules. IfSome (F.Source.files shelf.old)
        (λ files. HoldsRules files kind name.now rules.items)) }
    ensures read { IfOk result (AreRead kind) }
    ensures refused { IfErr result (λ refusal. IfSome (F.Source.files shelf.old) (λ files.
        Refuses files kind name.now (Rose (H.faults host.old) (H.faults host.new)) refusal)) }
    ensures apart { IfErr result IsNoMemoryApart }
    ensures calm { IsCalmLoad (H.faults host.old) (H.faults host.new) result }
    ensures later { H.faults host.old ≤ H.faults host.new }
    ensures files { F.Source.files shelf.new ≡ F.Source.files shelf.old }
    ensures left { F.Source.left shelf.new ≡ F.Source.left shelf.old }
    ensures starts { F.Source.starts shelf.new ≡ F.Source.starts shelf.old }
    ensures cause { HasCauseOf LoadRefusal.ReadFault (F.Source.faults shelf.old) (F.Source.faults shelf.new) result }
{
    let mut bytes = Vec::new(alloc);
    shelf.fetch(name, MAX_FILE, &mut bytes)?;
    read_rules(alloc, &bytes, kind, host)
}

// Reads the rules of a file's bytes.
fn read_rules<H: RegexHost>(
    alloc: Global,
    bytes: &[u8],
    kind: RuleKind,
    host: &mut H,
) -> Result<Vec<Rule>, LoadRefusal>
    ensures ok { IfOk result (λ rules. spec.rules_of kind bytes.now ≡ Ok rules.items) }
    ensures read { IfOk result (AreRead kind) }
    ensures refused { IfErr result (IsStopped kind bytes.now (Rose (H.faults host.old) (H.faults host.new))) }
    ensures apart { IfErr result IsNoMemoryApart }
    ensures calm { IsCalmLoad (H.faults host.old) (H.faults host.new) result }
    ensures later { H.faults host.old ≤ H.faults host.new }
{
    match read_rules_file(alloc, bytes, kind, host) {
        Ok(rules) => Ok(rules),
        Err(refusal) if is_memory(&refusal) => Err(LoadRefusal::NoMemory),
        Err(refusal) => Err(LoadRefusal::BadFile(refusal)),
    }
}

// Whether memory ran out.
fn is_memory(refusal: &FileRefusal) -> bool
    ensures { result ≡ is_memory refusal.now }
{
    match refusal {
        FileRefusal::BadJson => false,
        FileRefusal::BadRules(refusal) => matches!(refusal.cause, RuleRefusal::NoMemory),
    }
}
