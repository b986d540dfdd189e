// Lists of what is written one after another.
ghost use Rattle.std.specs.Prelude.{◌≡◌, ◌++◌, ℕ, List, map, OnOk, string_bytes};
ghost use Rattle.session_spec.specs.Output as spec;

use crate::text::push_word;
use dnr_base::NoMemory;
use std::alloc::Global;

// What is an item of a list of a line.
pub(crate) trait Written {
    ghost text: { Self → List ℕ };

    fn push(&self, alloc: Global, into: &mut String) -> Result<(), NoMemory>
        ensures { OnOk result (string_bytes into.new ≡ string_bytes into.old ++ text self.now) };
}

// Appends the items in brackets.
pub(crate) fn push_list<T: Written>(
    alloc: Global,
    items: &[T],
    into: &mut String,
) -> Result<(), NoMemory>
    ensures { OnOk result (string_bytes into.new ≡ string_bytes into.old ++ spec.list_text (map T.text items.now)) }
{
    push_word("[", into)?;
    push_items(alloc, items, into)?;
    push_word("]", into)
}

fn push_items<T: Written>(alloc: Global, items: &[T], into: &mut String) -> Result<(), NoMemory>
    ensures { OnOk result (string_bytes into.new ≡ string_bytes into.old ++ spec.between_commas
        (map T.text items.now)) }
{
    let Some((first, rest)) = items.split_first() else {
        return Ok(());
    };
    first.push(alloc, into)?;
    push_more(alloc, rest, into)
}

fn push_more<T: Written>(alloc: Global, items: &[T], into: &mut String) -> Result<(), NoMemory>
    ensures { OnOk result (string_bytes into.new ≡ string_bytes into.old ++ spec.behind_commas (map T.text items.now)) }
{
    for item in items {
        into.push_str(",")?;
        item.push(alloc, into)?;
    }
    Ok(())
}
