use ruleset_store::Extension;
use std::marker::Model;
use suffix_list::SuffixList;

/// What a session has read before its script: the suffix list by which parties are told, and the extensions in the
/// order in which they are to be installed.
#[derive(Drop)]
pub struct Loaded {
    /// The suffix list; without a file it has no rules.
    pub suffixes: SuffixList,
    /// The extensions, oldest first.
    pub extensions: Vec<Extension>,
}

impl Model for Loaded {
    ghost use Rattle.session_spec.specs.Loading as spec;

    ghost Value = { spec.Loaded };

    ghost view = { λ l. record { suffixes = l.suffixes; extensions = l.extensions.items } };
}
