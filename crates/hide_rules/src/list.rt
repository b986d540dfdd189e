//! The lines of a list that hide elements.
ghost use Rattle.std.specs.Prelude.{◌≡◌, ◌≤◌, ◌<◌, ◌++◌, [], ◌∷◌, length, map, IfOk, IfErr, OnOk};
ghost use Rattle.list_spec.specs.LineKind.{lines_of};
ghost use Rattle.hide_spec.specs.HidingLine.{hide_line_of};
ghost use Rattle.hide_spec.specs.Hidden.{hiding_lines, max_hiding};
ghost use Rattle.hide_spec.specs.Report.{hide_report, hide_report_from, hide_report_of, hide_reason_of};
ghost use Rattle.hide_rules.specs.Seen.{hiding_seen, line_seen};
ghost use Rattle.hide_rules.specs.Taken.{CountsTooMany, TakesIn};

use crate::line::{HidingLine, Line, read_line};
use abp_parse::cut_at;
use dnr_base::NoMemory;
use hide_spec::{HideReason, HideReported};
use std::alloc::Global;

// The most lines that hide elements, or keep them.
const MAX_LINES: usize = 300_000;

/// Why a list is not read.
#[derive(Clone, Copy, Debug, PartialEq, Eq)]
pub enum HideRefusal {
    /// So many lines hide elements or are exceptions from hiding, and none has a fault: more than 300,000.
    TooManyLines(usize),
    /// Memory ran out.
    NoMemory,
}

impl From<NoMemory> for HideRefusal {
    ghost use Rattle.std.specs.Prelude.{◌≡◌};
    ghost use Rattle.hide_rules.specs.declared.list.HideRefusal.TheVariants as refusal;

    ghost from_gives = { λ _ e. e ≡ refusal.NoMemory };

    fn from(_: NoMemory) -> HideRefusal {
        HideRefusal::NoMemory
    }
}

/// What the lines of a list give: those that hide elements, and those that can't be used.
#[derive(Drop)]
pub struct Taken {
    pub lines: Vec<HidingLine>,
    pub reported: Vec<HideReported>,
}

impl Taken {
    // Takes in what the line of a number says.
    fn take(&mut self, number: u32, line: Line) -> Result<(), NoMemory>
        ensures { OnOk result (TakesIn number (line_seen line) self.old self.new) }
    {
        match line {
            Line::Other => {}
            Line::Hiding(line) => self.lines.push(line)?,
            Line::Unsupported(reason) => self.report(number, reason)?,
        }
        Ok(())
    }

    fn report(&mut self, line: u32, reason: HideReason) -> Result<(), NoMemory>
        ensures lines { self.new.lines ≡ self.old.lines }
        ensures reported { OnOk result (self.new.reported.items ≡ self.old.reported.items
            ++ record { line = line; reason = reason } ∷ []) }
    {
        self.reported.push(HideReported { line, reason })?;
        Ok(())
    }
}

fn take_lines(alloc: Global, lines: &[u8]) -> Result<Taken, NoMemory>
    requires { length lines.now < 4294967295 }
    ensures lines { IfOk result (λ taken. map hiding_seen taken.lines.items ≡ hiding_lines (lines_of lines.now)) }
    ensures reported { IfOk result (λ taken. taken.reported.items ≡ hide_report (lines_of lines.now)) }
{
    let mut taken = Taken {
        lines: Vec::new(alloc),
        reported: Vec::new(alloc),
    };
    let mut rest = lines;
    let mut number = 1;
    'lines: loop {
        let (line, later) = cut_at(b'\n', rest);
        taken.take(number, read_line(alloc, line)?)?;
        match later {
            Some(later) => rest = later,
            None => return Ok(taken),
        }
        number += 1;
    }
}

/// The lines of a list, unless there are too many.
pub fn read_lines(alloc: Global, lines: &[u8]) -> Result<Taken, HideRefusal>
    requires { length lines.now < 4294967295 }
    ensures lines { IfOk result (λ taken. map hiding_seen taken.lines.items ≡ hiding_lines (lines_of lines.now)) }
    ensures reported { IfOk result (λ taken. taken.reported.items ≡ hide_report (lines_of lines.now)) }
    ensures few { OnOk result (length (hiding_lines (lines_of lines.now)) ≤ max_hiding) }
    ensures too_many { IfErr result (CountsTooMany (hiding_lines (lines_of lines.now))) }
{
    let taken = take_lines(alloc, lines)?;
    if taken.lines.len() > MAX_LINES {
        return Err(HideRefusal::TooManyLines(taken.lines.len()));
    }
    Ok(taken)
}
