// What `hide` and `prune` print.
ghost use Rattle.std.specs.Prelude.{◌≡◌, ◌++◌, codes, decimal, OnOk, OnErr, string_bytes};
ghost use Rattle.session_spec.specs.Hiding as hiding;
ghost use Rattle.session_spec.specs.Pruning as pruning;

use crate::report::push_unsupported;
use crate::text::{append, new_line, push_number, push_quoted, push_text_field, push_word};
use crate::written::{Written, push_list};
use dnr_base::{NoMemory, Text};
use hide_spec::HideReported;
use prune_spec::Shadow;
use std::alloc::Global;

/// Appends what `hide` prints of a line that is for hiding elements and is not used.
///
/// `NoMemory`: no memory is left for it, and nothing is appended.
pub fn write_unhidden(
    alloc: Global,
    reported: &HideReported,
    into: &mut String,
) -> Result<(), NoMemory>
    ensures appended { OnOk result (string_bytes into.new ≡ string_bytes into.old
        ++ hiding.unhidden_line reported.now) }
    ensures kept { OnErr result (string_bytes into.new ≡ string_bytes into.old) }
{
    let mut text = new_line(alloc)?;
    push_unsupported(reported.line, reported.reason.code(), &mut text)?;
    push_word("}\n", &mut text)?;
    append(&text, into)
}

/// Appends what `hide` prints of the selectors that a page of this host hides.
///
/// `NoMemory`: no memory is left for it, and nothing is appended.
pub fn write_selectors(
    alloc: Global,
    host: &str,
    selectors: &[Text],
    into: &mut String,
) -> Result<(), NoMemory>
    ensures appended { OnOk result (string_bytes into.new ≡ string_bytes into.old
        ++ hiding.selectors_line host.now selectors.now) }
    ensures kept { OnErr result (string_bytes into.new ≡ string_bytes into.old) }
{
    let mut text = new_line(alloc)?;
    push_text_field(alloc, "{\"host\":", host, &mut text)?;
    push_word(",\"selectors\":", &mut text)?;
    push_list(alloc, selectors, &mut text)?;
    push_word("}\n", &mut text)?;
    append(&text, into)
}

impl Written for Text {
    ghost use Rattle.json.specs.Print.{quoted};

    ghost text = { λ text. quoted text };

    fn push(&self, alloc: Global, into: &mut String) -> Result<(), NoMemory> {
        push_quoted(alloc, self.as_str(), into)
    }
}

/// Appends what `prune` prints of a rule that is left out.
///
/// `NoMemory`: no memory is left for it, and nothing is appended.
pub fn write_removed(alloc: Global, removal: &Shadow, into: &mut String) -> Result<(), NoMemory>
    ensures appended { OnOk result (string_bytes into.new ≡ string_bytes into.old ++ pruning.removed_line removal.now) }
    ensures kept { OnErr result (string_bytes into.new ≡ string_bytes into.old) }
{
    let mut text = new_line(alloc)?;
    push_word("{\"removed\":", &mut text)?;
    push_number(removal.removed, &mut text)?;
    push_word(",\"by\":", &mut text)?;
    push_number(removal.by, &mut text)?;
    push_word("}\n", &mut text)?;
    append(&text, into)
}
