use dnr_base::NoMemory;

/// A text: where it stands in the bytes that go with a verdict.
#[repr(C)]
#[derive(Clone, Copy, Debug, PartialEq, Eq)]
pub struct ShownText {
    /// The place of its first byte.
    pub from: usize,
    /// How many bytes it has.
    pub length: usize,
}

/// A rule by where it stands.
#[repr(C)]
#[derive(Clone, Copy, Debug, PartialEq, Eq)]
pub struct ShownRule {
    /// The name of its extension.
    pub extension: ShownText,
    /// The id of its ruleset in the extension.
    pub ruleset: ShownText,
    /// Its id in the ruleset.
    pub id: u32,
}

/// A header change that took effect.
#[repr(C)]
#[derive(Clone, Copy, Debug, PartialEq, Eq)]
pub struct ShownChange {
    /// The name of the header, in lower case.
    pub name: ShownText,
    /// The value that is added, where `has_value` says that there is one.
    pub value: ShownText,
    /// The rule that asked for it.
    pub rule: ShownRule,
    /// 0: a header of the request. 1: one of the response.
    pub direction: u32,
    /// 0: the value is added behind the others. 1: it is put in place of all. 2: the header is taken away.
    pub operation: u32,
    /// Whether there is a value.
    pub has_value: bool,
}

/// What becomes of a request.
#[repr(C)]
#[derive(Clone, Copy, Debug, PartialEq, Eq)]
pub struct ShownVerdict {
    /// The rule that decides, where `has_rule` says that there is one.
    pub rule: ShownRule,
    /// The URL that it is sent to, where `has_target` says that there is one.
    pub target: ShownText,
    /// How many bytes the texts take.
    pub bytes: usize,
    /// How many header changes take effect.
    pub changes: usize,
    /// 0: no rule decides it. 1: it is cancelled. 2: redirected. 3: upgraded. 4: allowed.
    pub outcome: u32,
    /// How many updates were accepted before.
    pub generation: u32,
    /// Whether a rule decides.
    pub has_rule: bool,
    /// Whether it is sent to another URL.
    pub has_target: bool,
}

/// Why a verdict is not shown.
#[derive(Clone, Copy, Debug, PartialEq, Eq)]
pub enum ShowRefusal {
    /// The texts or the changes take more than there is room for: this verdict says how much.
    Room(ShownVerdict),
    /// Memory ran out.
    NoMemory,
}

impl From<NoMemory> for ShowRefusal {
    ghost use Rattle.std.specs.Prelude.{◌≡◌};
    ghost use Rattle.verdict_shown.specs.declared.shown.ShowRefusal.TheVariants as refusal;

    ghost from_gives = { λ _ r. r ≡ refusal.NoMemory };

    fn from(_: NoMemory) -> ShowRefusal {
        ShowRefusal::NoMemory
    }
}
