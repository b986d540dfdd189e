/// Why a file is no public suffix list.
#[derive(Clone, Copy, Debug, PartialEq, Eq)]
pub enum SuffixRefusal {
    /// The file is not UTF-8.
    NotUtf8,
    /// The line of this number, from 1, is no rule: it has an empty label, a label of other characters than
    /// letters, digits, `-` and `_`, or it is an exception of one label.
    BadRule(u32),
    /// There are more than 65,536 rules.
    TooManyRules,
    /// Memory ran out.
    NoMemory,
}
