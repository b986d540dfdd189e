//! What a pass answers to a request.
ghost use Rattle.std.specs.Prelude.{◌≡◌, ◌++◌, OnOk, OnErr, string_bytes};
ghost use Rattle.session_spec.specs.Said.{answer_line, is_failed};
ghost use Rattle.session_seats.specs.Told.{answer_of, number_of};

use dnr_base::{NoMemory, RuleName};
use explain_report::{write_explain, write_fault, write_verdict};
use published::{Answer, Explained};
use std::alloc::Global;

/// What a pass answers to a request, and after how many updates.
#[derive(Debug, Drop)]
pub enum Told {
    /// What becomes of the request.
    Decided(Answer),
    /// That, and why.
    Explained(Explained),
    /// After so many updates the host of patterns failed on this rule.
    Failed(u32, RuleName),
}

impl Told {
    /// The count of the updates and batches by which it is answered.
    pub fn number(&self) -> u32
        ensures { result ≡ number_of self.now }
    {
        match self {
            Told::Decided(answer) => answer.number,
            Told::Explained(answer) => answer.number,
            Told::Failed(number, _) => *number,
        }
    }

    /// Whether the host of patterns failed.
    pub fn failed(&self) -> bool
        ensures { result ≡ is_failed (answer_of self.now) }
    {
        match self {
            Told::Decided(_) | Told::Explained(_) => false,
            Told::Failed(_, _) => true,
        }
    }

    /// Appends the line that is printed of it, where the request stands in the line of this number.
    ///
    /// `NoMemory`: no memory is left for it, and nothing is appended.
    pub fn write(&self, alloc: Global, line: u32, into: &mut String) -> Result<(), NoMemory>
        ensures appended { OnOk result (string_bytes into.new
            ≡ string_bytes into.old ++ answer_line line (number_of self.now) (answer_of self.now)) }
        ensures kept { OnErr result (string_bytes into.new ≡ string_bytes into.old) }
    {
        match self {
            Told::Decided(answer) => {
                write_verdict(alloc, line, answer.number, &answer.verdict, into)
            }
            Told::Explained(answer) => {
                write_explain(alloc, line, answer.number, &answer.explanation, into)
            }
            Told::Failed(number, rule) => write_fault(alloc, line, *number, rule, into),
        }
    }
}
