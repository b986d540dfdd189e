//! The selectors of lines.
ghost use Rattle.std.specs.Prelude.{◌≡◌, IfOk, OnOk};
ghost use Rattle.hide_rules.specs.Seen.{hiding_seen, lines_seen};
ghost use Rattle.hide_rules.specs.Selectors.{HasSelectors, PutsIn, is_kind};
ghost use Rattle.hide_rules.specs.Texts.{texts_of};

use crate::applies::applies;
use crate::line::HidingLine;
use dnr_base::NoMemory;
use std::alloc::Global;
use std::collections::BTreeSet;

// Whether the line is an exception, or whether it hides elements.
fn is_kind(line: &HidingLine, exception: bool) -> bool
    ensures { result ≡ is_kind exception (hiding_seen line.now) }
{
    line.exception == exception
}

// Puts the selector of a line in, if it is of this kind and for these pages.
fn put_selector(
    alloc: Global,
    set: &mut BTreeSet<String>,
    line: &HidingLine,
    domains: &[&str],
    exception: bool,
) -> Result<(), NoMemory>
    ensures { OnOk result
        (PutsIn exception (texts_of domains.now) (hiding_seen line.now) set.old set.new) }
{
    if is_kind(line, exception) && applies(line.domains.as_slice(), domains) {
        let selector = String::from_str(alloc, line.selector.as_str())?;
        set.insert(selector)?;
    }
    Ok(())
}

/// The selectors of those lines that are for pages which these domains cover: of the exceptions, or
/// else of the lines that hide elements.
///
/// `NoMemory`: no memory is left for them.
pub fn selectors_of(
    alloc: Global,
    lines: &[&HidingLine],
    domains: &[&str],
    exception: bool,
) -> Result<BTreeSet<String>, NoMemory>
    ensures { IfOk result (HasSelectors exception (texts_of domains.now) (lines_seen lines.now)) }
{
    let mut set = BTreeSet::new(alloc);
    for line in lines {
        put_selector(alloc, &mut set, line, domains, exception)?;
    }
    Ok(set)
}
