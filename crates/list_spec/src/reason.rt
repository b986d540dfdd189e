use dnr_base::Text;

/// Why a line of a filter list gives no rule, although it is no comment. The reasons stand in the order in
/// which they are tested.
#[derive(Debug, Drop, PartialEq, Eq)]
pub enum Reason {
    /// The line has more than 65,536 bytes, or its pattern more than 8,192.
    LineTooLong,
    /// It hides elements of a page: it contains `##`, `#@#`, `#?#`, `#$#` or `#%#`.
    ElementHiding,
    /// It has a byte past ASCII.
    NotAscii,
    /// It has white space or a control character inside.
    Space,
    /// It has an option that is not known. The option's name is in lower case, without a `~` before it.
    UnknownOption(Text),
    /// This option has a value and must have none, or it is `domain` and its list is none. The name is in
    /// lower case.
    OptionValue(Text),
    /// It is a blocking filter and has the option `document`, which only exceptions may have.
    DocumentOnBlock,
    /// An entry of `domain=` is no domain.
    BadDomain,
    /// It is an exception with no pattern and no options.
    EmptyPattern,
    /// Its pattern begins with `||*`.
    AnchorStar,
    /// Its pattern is a regular expression that can't be used. Whether it can is known where the list is
    /// compiled, so no reading of a line alone gives this reason.
    BadRegex,
}
