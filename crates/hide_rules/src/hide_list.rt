//! A list that was read.
ghost use Rattle.std.specs.Prelude.{◌≡◌, ◌≤◌, ◌<◌, length, IfOk, IfErr, OnOk};
ghost use Rattle.list_spec.specs.LineKind.{lines_of};
ghost use Rattle.hide_spec.specs.Hidden.{hiding_lines, hidden_by, max_hiding};
ghost use Rattle.hide_spec.specs.Report.{hide_report};
ghost use Rattle.hide_rules.specs.Taken.{CountsTooMany};

use crate::ends::ends_of;
use crate::index::{Index, index_of};
use crate::line::HidingLine;
use crate::list::{HideRefusal, read_lines};
use crate::page::hidden;
use dnr_base::{NoMemory, Text};
use hide_spec::HideReported;
use std::alloc::Global;
use std::marker::Model;

/// The lines of a filter list that hide elements of pages, and the exceptions among them: Adblock Plus, "How to
/// write filters", "Element hiding". A clause sees them as the list of these lines, in their order.
#[derive(Drop)]
pub struct HideList {
    lines: Vec<HidingLine>,
    index: Index,
}

impl Model for HideList {
    ghost use Rattle.std.specs.Prelude.{List, map};
    ghost use Rattle.hide_spec.specs.HidingLine as spec;
    ghost use Rattle.hide_rules.specs.Index.{Indexes};
    ghost use Rattle.hide_rules.specs.Seen.{hiding_seen};

    ghost Value = { List spec.HidingLine };

    ghost view = { λ list. map hiding_seen list.lines.items };

    ghost invariant = { λ list. Indexes (map hiding_seen list.lines.items) list.index };
}

impl HideList {
    /// Reads a filter list: its lines that hide elements, and a report of those that would but can't be used, in the
    /// order of lines. Lines end at LF. Lines that say nothing of elements are passed over.
    ///
    /// # Errors
    ///
    /// - `TooManyLines`: more than 300,000 lines hide elements or are exceptions, without a fault.
    /// - `NoMemory`: memory ran out.
    pub fn read(alloc: Global, lines: &[u8]) -> Result<(HideList, Vec<HideReported>), HideRefusal>
        requires { length lines.now < 4294967295 }
        ensures lines { IfOk result (λ answer. answer.0 ≡ hiding_lines (lines_of lines.now)) }
        ensures reported { IfOk result (λ answer. answer.1.items ≡ hide_report (lines_of lines.now)) }
        ensures few { OnOk result (length (hiding_lines (lines_of lines.now)) ≤ max_hiding) }
        ensures too_many { IfErr result (CountsTooMany (hiding_lines (lines_of lines.now))) }
    {
        let taken = read_lines(alloc, lines)?;
        let index = index_of(alloc, taken.lines.as_slice())?;
        let list = HideList {
            lines: taken.lines,
            index,
        };
        Ok((list, taken.reported))
    }

    /// The selectors that pages of a host hide, ascending by bytes, each once.
    ///
    /// # Errors
    ///
    /// `NoMemory`, where memory ran out for them.
    pub fn selectors(&self, alloc: Global, host: &str) -> Result<Vec<Text>, NoMemory>
        ensures { IfOk result (λ texts. texts.items ≡ hidden_by self.now host.now) }
    {
        let ends = ends_of(alloc, host)?;
        let texts = hidden(alloc, self.lines.as_slice(), &self.index, ends.as_slice())?;
        Ok(texts)
    }
}
