ghost use Rattle.published.specs.Counted.{EntriesAreCounted};

/// Each accepted entry counts once, whether it is an update or a batch: so the number of an answer is the count of
/// the generation by which it was given, where the pair opened with a count of 0. The function does nothing.
pub fn entries_are_counted()
    ensures { EntriesAreCounted }
{}
