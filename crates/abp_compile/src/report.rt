use compile_spec::Reported;
use dnr_base::{Items, NoMemory};

/// What is told of a list that was compiled.
#[derive(Debug, Drop)]
pub struct Report {
    /// The lines that give no filter, although they are neither blank nor a comment nor a header, in their order.
    pub lines: Items<Reported>,
    /// For each rule the numbers of the lines that it comes from, counted from 1. They are moved into a ruleset as
    /// they are.
    pub origins: Vec<Items<u32>>,
}

/// Why a list is not compiled.
#[derive(Clone, Copy, Debug, PartialEq, Eq)]
pub enum CompileRefusal {
    /// The list gives this many rules, which are more than 300,000.
    TooManyRules(usize),
    /// The host of patterns failed at the regular expression of this line, counted from 1.
    HostFault(u32),
    /// Memory ran out.
    NoMemory,
}

impl From<NoMemory> for CompileRefusal {
    ghost use Rattle.std.specs.Prelude.{◌≡◌};
    ghost use Rattle.abp_compile.specs.declared.report.CompileRefusal.TheVariants as refusal;

    ghost from_gives = { λ _ e. e ≡ refusal.NoMemory };

    fn from(_: NoMemory) -> CompileRefusal {
        CompileRefusal::NoMemory
    }
}
