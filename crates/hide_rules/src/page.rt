//! What a page hides.
ghost use Rattle.std.specs.Prelude.{◌≡◌, [], ◌∷◌, ◌++◌, map, string_bytes, IfOk, OnOk, filter};
ghost use Rattle.hide_rules.specs.Index.{Indexes, is_shown};
ghost use Rattle.hide_rules.specs.Merged.{IsMerged};
ghost use Rattle.hide_rules.specs.Page.{hidden_by};
ghost use Rattle.hide_rules.specs.Seen.{hiding_seen};
ghost use Rattle.hide_rules.specs.Texts.{texts_of};

use crate::candidates::candidates;
use crate::index::Index;
use crate::line::HidingLine;
use crate::selectors::selectors_of;
use dnr_base::{NoMemory, Text};
use std::alloc::Global;
use std::collections::BTreeSet;

// Whether no exception keeps the selector.
fn is_shown(index: &Index, kept: &BTreeSet<String>, selector: &String) -> bool
    ensures { result ≡ is_shown index.now kept.now (string_bytes selector.now) }
{
    !index.kept.contains(selector.as_str()) && !kept.contains(selector.as_str())
}

// Puts a selector behind the others, unless an exception keeps it.
fn push_shown(
    alloc: Global,
    texts: &mut Vec<Text>,
    index: &Index,
    kept: &BTreeSet<String>,
    selector: &String,
) -> Result<(), NoMemory>
    ensures { OnOk result (texts.new.items ≡ texts.old.items
        ++ filter (is_shown index.now kept.now) (string_bytes selector.now ∷ [])) }
{
    if is_shown(index, kept, selector) {
        let text = String::from_str(alloc, selector.as_str())?;
        texts.push(Text::build(text))?;
    }
    Ok(())
}

// What lines without a domain hide and what others hide, but for what exceptions keep. Both sets
// are sorted, so nothing is sorted here.
fn merged(
    alloc: Global,
    index: &Index,
    hidden: &BTreeSet<String>,
    kept: &BTreeSet<String>,
) -> Result<Vec<Text>, NoMemory>
    ensures { IfOk result (λ texts.
        IsMerged (is_shown index.now kept.now) index.now.hidden hidden.now texts.items) }
{
    let mut texts = Vec::new(alloc);
    for selector in index.hidden.union(hidden) {
        push_shown(alloc, &mut texts, index, kept, selector)?;
    }
    Ok(texts)
}

/// The selectors of the lines that hide elements on the pages that these domains cover, ascending
/// by bytes, each once.
///
/// `NoMemory`: no memory is left for them.
pub fn hidden(
    alloc: Global,
    lines: &[HidingLine],
    index: &Index,
    domains: &[&str],
) -> Result<Vec<Text>, NoMemory>
    requires { Indexes (map hiding_seen lines.now) index.now }
    ensures { IfOk result (λ texts.
        texts.items ≡ hidden_by (texts_of domains.now) (map hiding_seen lines.now)) }
{
    let found = candidates(alloc, lines, index, domains)?;
    let hidden = selectors_of(alloc, found.as_slice(), domains, false)?;
    let kept = selectors_of(alloc, found.as_slice(), domains, true)?;
    let texts = merged(alloc, index, &hidden, &kept)?;
    Ok(texts)
}
