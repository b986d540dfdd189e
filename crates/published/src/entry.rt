use history::EntryOf;
use ruleset_store::Update;
use std::marker::Model;

/// What a history of updates is made of: an update, or several that were made together. A clause sees the entry of
/// `update_spec`. No value of it is made, since the history exists in proofs alone.
pub struct Entry {
    content: Content,
}

// What an entry has.
enum Content {
    One(Update),
    Together(Vec<Update>),
}

impl Model for Entry {
    ghost use Rattle.update_spec.specs.Entries as entries;
    ghost use Rattle.published.specs.Content.{entry_of};

    ghost Value = { entries.Entry };

    ghost view = { λ e. entry_of e.content };
}

// An update is an entry.
pub struct One;

impl EntryOf<Update, Entry> for One {
    ghost use Rattle.ruleset_store.specs.Seen.{update_seen};
    ghost use Rattle.update_spec.specs.Entries.{one};

    ghost entry = { λ update. one (update_seen update) };
}

// Updates that are made together are one entry.
pub struct Together;

impl<'u> EntryOf<&'u [Update], Entry> for Together {
    ghost use Rattle.ruleset_store.specs.Seen.{updates_seen};
    ghost use Rattle.update_spec.specs.Entries.{batch};

    ghost entry = { λ updates. batch (updates_seen updates.now) };
}
