ghost use Rattle.std.specs.Prelude.{◌≡◌};
ghost use Rattle.hide_spec.specs.Code.{hide_code};

/// Why a line of a filter list that is for hiding elements is not used. The reasons stand in the order in
/// which they are tested.
#[derive(Clone, Copy, Debug, PartialEq, Eq)]
pub enum HideReason {
    /// The line has more than 65,536 bytes, whatever it says.
    LineTooLong,
    /// Its separator is `#?#`, `#$#` or `#%#`, which belong to the syntaxes of other blockers.
    HideSyntax,
    /// Its selector is no UTF-8.
    NotUtf8,
    /// One of its domains is none.
    BadDomain,
    /// Nothing stands behind its separator.
    EmptySelector,
    /// One of its domains stands there both with `~` and without.
    BothDomains,
}

impl HideReason {
    /// How it is written in a report.
    pub fn code(self) -> &'static str
        ensures { result.now ≡ hide_code self }
    {
        match self {
            HideReason::LineTooLong => "line-too-long",
            HideReason::HideSyntax => "hide-syntax",
            HideReason::NotUtf8 => "not-utf8",
            HideReason::BadDomain => "bad-domain",
            HideReason::EmptySelector => "empty-selector",
            HideReason::BothDomains => "both-domains",
        }
    }
}
