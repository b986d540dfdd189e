/// Why no removals are looked for.
#[derive(Clone, Copy, Debug, PartialEq, Eq)]
pub enum PruneRefusal {
    /// There are more than 10,000 rules: so many.
    TooManyRules(usize),
    /// Memory ran out.
    NoMemory,
}
