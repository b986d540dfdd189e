ghost use Rattle.key_table.specs.Kept.{HaveAtMost};

/// A key and one of its places: the key's tag, where the key stands in the texts, the place, and what else it needs.
#[derive(Clone, Copy, Debug)]
pub(crate) struct Entry {
    pub needed: u128,
    pub tag: u32,
    pub at: u32,
    pub len: u32,
    pub place: u32,
}

/// How many bytes the longest key of the entries has.
pub(crate) fn longest_of(entries: &[Entry]) -> u32
    ensures { HaveAtMost result entries.now }
{
    let mut longest = 0;
    for entry in entries {
        longest = longest.max(entry.len);
    }
    longest
}
