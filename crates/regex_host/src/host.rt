ghost use Rattle.std.specs.Prelude.{◌≡◌, ℕ, true, Some, None, IfOk, IsErrOf, if◌then◌else◌};
ghost use Rattle.dnr_base.specs.Faults.{HasCauseOf};
ghost use Rattle.dnr_spec.specs.Patterns.{groups_of, found, ArePlacesIn};
ghost use Rattle.regex_host.specs.Answers.{IsCalm, KeepsPlaces};
ghost use Rattle.regex_host.specs.Asked.{Asked};

use dnr_base::Span;

/// Why a host of patterns does not answer.
#[derive(Clone, Copy, Debug, PartialEq, Eq)]
pub enum HostRefusal {
    /// The text is no pattern.
    NoPattern,
    /// The host failed, and its count of faults rose.
    HostFault,
    /// Memory ran out.
    NoMemory,
}

/// What finds the matches of patterns. The syntax and the meaning of a pattern are those of the crate
/// `regex`; by Chrome's reference a rule's `regexFilter` is such a pattern.
pub trait RegexHost {
    /// How many faults there were.
    ghost faults: { Self → ℕ };

    /// One call that asks for this may lead from the first state to the second. A caller that says which calls
    /// it makes says so by `AsksFor`.
    ghost asks: { Self → Asked → Self → Type 0 };

    /// The count of faults. It never falls, and stands still at the greatest `u64`.
    fn faults(&self) -> u64
        ensures { result ≡ faults self.now };

    /// The count of groups of a pattern besides the whole match; `fold` where the case of letters is not to
    /// matter.
    ///
    /// # Errors
    ///
    /// - `NoPattern`: the text is no pattern, or one that is nested deeper than 250.
    /// - `HostFault`: the host failed. The count rose in this call, and it rises in no other way.
    /// - `NoMemory`: memory ran out.
    fn check(&mut self, pattern: &str, fold: bool) -> Result<u32, HostRefusal>
        ensures groups { IfOk result (λ count. groups_of pattern.now ≡ Some count) }
        ensures no_pattern { IsErrOf result HostRefusal.NoPattern → groups_of pattern.now ≡ None }
        ensures asks { asks self.old (record { pattern = pattern.now; fold = fold }) self.new }
        ensures cause { HasCauseOf HostRefusal.HostFault (faults self.old) (faults self.new) result }
        ensures calm { IsCalm (faults self.old) (faults self.new) result };

    /// Whether a pattern matches somewhere in a text, and where groups 0 to 9 of its first match stand, of
    /// which group 0 is the whole match; `fold` where the case of letters does not matter. A group that
    /// took no part stands nowhere, and so does one that the pattern does not have. A text that is no
    /// pattern matches nothing.
    ///
    /// The places are written where there is a match, and stay as they were where there is none.
    ///
    /// # Errors
    ///
    /// - `HostFault`: the host failed. The count rose in this call, and it rises in no other way.
    /// - `NoMemory`: memory ran out.
    fn find(
        &mut self,
        pattern: &str,
        fold: bool,
        text: &str,
        spans: &mut [Option<Span>; 10],
    ) -> Result<bool, HostRefusal>
        ensures found { IfOk result (λ is_found. found pattern.now fold text.now ≡ (if is_found then Some spans.new else None)) }
        ensures within { IfOk result (λ is_found. is_found ≡ true → ArePlacesIn text.now spans.new) }
        ensures kept { KeepsPlaces result spans.old spans.new }
        ensures pattern { IsErrOf result HostRefusal.NoPattern → ⊥ }
        ensures asks { asks self.old (record { pattern = pattern.now; fold = fold }) self.new }
        ensures cause { HasCauseOf HostRefusal.HostFault (faults self.old) (faults self.new) result }
        ensures calm { IsCalm (faults self.old) (faults self.new) result };
}
