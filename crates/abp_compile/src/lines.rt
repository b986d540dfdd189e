// The lines of a list, one after another.
ghost use Rattle.std.specs.Prelude.{◌≡◌, ◌==◌, ◌≤◌, ◌<◌, ◌++◌, [], ◌∷◌, ℕ, length, map, position, All, IfOk};
ghost use Rattle.std.specs.Prelude.{IfErr, IfSome, IsErrOf, OnOk};
ghost use Rattle.std.specs.List.{flat_map};
ghost use Rattle.dnr_base.specs.Faults.{HasCauseOf};
ghost use Rattle.abp_parse.specs.Cut.{pieces_left};
ghost use Rattle.abp_parse.specs.Seen.{filter_seen, line_seen, pattern_seen};
ghost use Rattle.list_spec.specs.LineKind.{lines_of, line_of, filter_line};
ghost use Rattle.list_spec.specs.Says.{filter_in, reason_of, is_usable};
ghost use Rattle.regex_host.specs.Answers as asked;
ghost use Rattle.compile_spec.specs.Compiled.{compiled, rules_in, origins_in, max_compiled, placed_from, drafts_of};
ghost use Rattle.compile_spec.specs.Report.{report, report_of, report_from};
ghost use Rattle.abp_compile.specs.Answers.{CountsTooMany, StopsAt, IsCalm};
ghost use Rattle.regex_host.specs.Asked.{AsksFor};
ghost use Rattle.abp_compile.specs.Asked.{IsAsked, IsNotTooMany, StopsOnlyAt};
ghost use Rattle.abp_compile.specs.Asked.{asked_by, asked_at, asked_about, AsksFirst};
ghost use Rattle.abp_compile.specs.Groups.{told, standing_of, placed_in, AreFound, HasFilters, Takes};
ghost use Rattle.abp_compile.specs.Work.{HasDrafts, GivesAllRules};

use crate::groups::Groups;
use crate::report::{CompileRefusal, Report};
use crate::work::{MAX_RULES, Work};
use abp_parse::{FilterLine, FilterPattern, Line, parse_line};
use compile_laws::groups_give_rules;
use compile_spec::Reported;
use dnr_base::{Items, NoMemory};
use dnr_rules::Rule;
use list_spec::Reason;
use regex_host::{HostRefusal, RegexHost};
use std::alloc::Global;

// The most bytes of a regular expression.
const MAX_REGEX: usize = 4096;

/// Compiles a filter list: the rules of its filters, with ids from 1 in the order of the lines, and a report. Lines end
/// at LF. Filters of plain domains that are alike give the rules of the first of them, with a list of all domains.
///
/// # Errors
///
/// - `TooManyRules`: the list gives more than 300,000 rules.
/// - `HostFault`: the host failed at the regular expression of a line, and its count of faults rose in this call.
/// - `NoMemory`: memory ran out.
pub fn compile<H: RegexHost>(
    alloc: Global,
    lines: &[u8],
    host: &mut H,
) -> Result<(Vec<Rule>, Report), CompileRefusal>
    requires { length lines.now < 4294967295 }
    ensures rules { IfOk result (λ answer. answer.0.items ≡ rules_in (compiled (lines_of lines.now))) }
    ensures origins { IfOk result (λ answer. answer.1.origins.items ≡ origins_in (compiled (lines_of lines.now))) }
    ensures reported { IfOk result (λ answer. answer.1.lines ≡ report (lines_of lines.now)) }
    ensures few { OnOk result (length (compiled (lines_of lines.now)) ≤ max_compiled) }
    ensures too_many { IfErr result (CountsTooMany (compiled (lines_of lines.now))) }
    ensures stops { IfErr result (StopsAt (lines_of lines.now)) }
    ensures asked { OnOk result (AsksFor H.asks host.old (asked_about (lines_of lines.now)) host.new) }
    ensures tried { AsksFirst H.asks host.old (asked_about (lines_of lines.now)) host.new }
    ensures cause { (line : ℕ) → HasCauseOf (CompileRefusal.HostFault line) (H.faults host.old) (H.faults host.new) result }
    ensures calm { IsCalm (H.faults host.old) (H.faults host.new) result }
{
    let taken = match take_lines(alloc, lines, host) {
        Ok(taken) => taken,
        Err(refusal) => return Err(refusal),
    };
    groups_give_rules();
    let work = rules_of(alloc, taken.groups)?;
    if work.count > MAX_RULES {
        return Err(CompileRefusal::TooManyRules(work.count));
    }
    let report = Report {
        lines: Items::build(taken.reported),
        origins: work.origins,
    };
    Ok((work.rules, report))
}

// The rules of the groups, in their order.
fn rules_of(alloc: Global, groups: Groups) -> Result<Work, NoMemory>
    requires { All GivesAllRules (map (λ group. standing_of (told group)) groups.list.items) }
    ensures { IfOk result (λ work. HasDrafts work (flat_map (λ group. drafts_of (standing_of (told group))) groups.list.items)) }
{
    let mut list = groups.into_list();
    // Each group is let go as its rules are made.
    list.reverse();
    let mut work = Work::new(alloc);
    while let Some(group) = list.pop() {
        let standing = group.stand(alloc)?;
        work.add(alloc, standing)?;
    }
    Ok(work)
}

// What the lines of a list give: filters, and reports.
#[derive(Drop)]
struct Taken {
    groups: Groups,
    reported: Vec<Reported>,
}

impl Taken {
    fn report(&mut self, line: u32, reason: Reason) -> Result<(), NoMemory>
        ensures reported { OnOk result (self.new.reported.items ≡ self.old.reported.items ++ record { line = line; reason = reason } ∷ []) }
        ensures groups { self.new.groups ≡ self.old.groups }
    {
        self.reported.push(Reported { line, reason })?;
        Ok(())
    }
}

fn take_lines<H: RegexHost>(
    alloc: Global,
    lines: &[u8],
    host: &mut H,
) -> Result<Taken, CompileRefusal>
    requires { length lines.now < 4294967295 }
    ensures filters { IfOk result (λ taken. HasFilters taken.groups (placed_from 1 (lines_of lines.now))) }
    ensures reported { IfOk result (λ taken. taken.reported.items ≡ report_from 1 (lines_of lines.now)) }
    ensures stops { IfErr result (StopsAt (lines_of lines.now)) }
    ensures few { IfErr result IsNotTooMany }
    ensures asked { OnOk result (AsksFor H.asks host.old (asked_about (lines_of lines.now)) host.new) }
    ensures tried { AsksFirst H.asks host.old (asked_about (lines_of lines.now)) host.new }
    ensures cause { (line : ℕ) → HasCauseOf (CompileRefusal.HostFault line) (H.faults host.old) (H.faults host.new) result }
    ensures calm { IsCalm (H.faults host.old) (H.faults host.new) result }
{
    let mut taken = Taken {
        groups: Groups::new(alloc),
        reported: Vec::new(alloc),
    };
    let mut rest = lines;
    let mut number = 1;
    'lines: loop {
        let (line, later) = cut_line(rest);
        match take_line(alloc, number, line, &mut taken, host) {
            Ok(()) => {}
            Err(refusal) => return Err(refusal),
        }
        match later {
            Some(later) => rest = later,
            None => return Ok(taken),
        }
        number += 1;
    }
}

// The first line of a text, and what stands behind its LF, if there is one.
fn cut_line(text: &[u8]) -> (&[u8], Option<&[u8]>)
    ensures lines { lines_of text.now ≡ result.0.now ∷ pieces_left 10 result.1 }
    ensures shorter { IfSome result.1 (λ later. length later.now < length text.now) }
{
    match end_of_line(text) {
        Some(place) => (&text[..place], Some(&text[place + 1..])),
        None => (text, None),
    }
}

// The place of the first LF.
fn end_of_line(text: &[u8]) -> Option<usize>
    ensures { result ≡ position (λ b. b == 10) text.now }
{
    text.iter().position(|byte| *byte == b'\n')
}

fn take_line<H: RegexHost>(
    alloc: Global,
    number: u32,
    line: &[u8],
    taken: &mut Taken,
    host: &mut H,
) -> Result<(), CompileRefusal>
    requires found { AreFound taken.old.groups }
    ensures found { OnOk result (AreFound taken.new.groups) }
    ensures takes { OnOk result (Takes (placed_in number (filter_in (line_of line.now))) taken.old.groups taken.new.groups) }
    ensures reported { OnOk result (taken.new.reported.items ≡ taken.old.reported.items ++ report_of number (reason_of (line_of line.now))) }
    ensures stops { IfErr result (StopsOnlyAt number (line_of line.now)) }
    ensures asked { OnOk result (AsksFor H.asks host.old (asked_at (line_of line.now)) host.new) }
    ensures tried { AsksFirst H.asks host.old (asked_at (line_of line.now)) host.new }
    ensures cause { HasCauseOf (CompileRefusal.HostFault number) (H.faults host.old) (H.faults host.new) result }
    ensures calm { IsCalm (H.faults host.old) (H.faults host.new) result }
{
    let parsed = parse_line(alloc, line)?;
    take_parsed(alloc, number, parsed, taken, host)
}

fn take_parsed<H: RegexHost>(
    alloc: Global,
    number: u32,
    line: Line,
    taken: &mut Taken,
    host: &mut H,
) -> Result<(), CompileRefusal>
    requires found { AreFound taken.old.groups }
    ensures found { OnOk result (AreFound taken.new.groups) }
    ensures takes { OnOk result (Takes (placed_in number (filter_in (line_seen line))) taken.old.groups taken.new.groups) }
    ensures reported { OnOk result (taken.new.reported.items ≡ taken.old.reported.items ++ report_of number (reason_of (line_seen line))) }
    ensures stops { IfErr result (StopsOnlyAt number (line_seen line)) }
    ensures asked { AsksFor H.asks host.old (asked_at (line_seen line)) host.new }
    ensures cause { HasCauseOf (CompileRefusal.HostFault number) (H.faults host.old) (H.faults host.new) result }
    ensures calm { IsCalm (H.faults host.old) (H.faults host.new) result }
{
    match line {
        Line::Blank => Ok(()),
        Line::Comment => Ok(()),
        Line::Header => Ok(()),
        Line::Unsupported(reason) => {
            taken.report(number, reason)?;
            Ok(())
        }
        Line::Filter(filter) => take_filter(alloc, number, filter, taken, host),
    }
}

// Takes in a filter, or reports its line where the pattern can't be used.
fn take_filter<H: RegexHost>(
    alloc: Global,
    number: u32,
    filter: FilterLine,
    taken: &mut Taken,
    host: &mut H,
) -> Result<(), CompileRefusal>
    requires found { AreFound taken.old.groups }
    ensures found { OnOk result (AreFound taken.new.groups) }
    ensures takes { OnOk result (Takes (placed_in number (filter_in (filter_line (filter_seen filter)))) taken.old.groups taken.new.groups) }
    ensures reported { OnOk result (taken.new.reported.items ≡ taken.old.reported.items ++ report_of number (reason_of (filter_line (filter_seen filter)))) }
    ensures stops { IfErr result (StopsOnlyAt number (filter_line (filter_seen filter))) }
    ensures asked { AsksFor H.asks host.old (asked_by (pattern_seen filter.pattern) filter.match_case) host.new }
    ensures cause { HasCauseOf (CompileRefusal.HostFault number) (H.faults host.old) (H.faults host.new) result }
    ensures calm { IsCalm (H.faults host.old) (H.faults host.new) result }
{
    match is_usable(&filter, host) {
        Ok(true) => {
            taken.groups.add(alloc, number, filter)?;
            Ok(())
        }
        Ok(false) => {
            taken.report(number, Reason::BadRegex)?;
            Ok(())
        }
        Err(HostRefusal::HostFault) => Err(CompileRefusal::HostFault(number)),
        Err(_) => Err(CompileRefusal::NoMemory),
    }
}

// Whether the pattern of a filter can be used.
fn is_usable<H: RegexHost>(filter: &FilterLine, host: &mut H) -> Result<bool, HostRefusal>
    ensures usable { IfOk result (λ usable. usable ≡ is_usable (pattern_seen filter.now.pattern)) }
    ensures stops { IsErrOf result HostRefusal.HostFault → IsAsked (pattern_seen filter.now.pattern) }
    ensures asked { AsksFor H.asks host.old (asked_by (pattern_seen filter.now.pattern) filter.now.match_case) host.new }
    ensures cause { HasCauseOf HostRefusal.HostFault (H.faults host.old) (H.faults host.new) result }
    ensures calm { asked.IsCalm (H.faults host.old) (H.faults host.new) result }
{
    let FilterPattern::Regex(pattern) = &filter.pattern else {
        return Ok(true);
    };
    if pattern.as_str().len() > MAX_REGEX {
        return Ok(false);
    }
    match host.check(pattern.as_str(), !filter.match_case) {
        Ok(_) => Ok(true),
        Err(HostRefusal::NoPattern) => Ok(false),
        Err(HostRefusal::HostFault) => Err(HostRefusal::HostFault),
        Err(HostRefusal::NoMemory) => Err(HostRefusal::NoMemory),
    }
}
