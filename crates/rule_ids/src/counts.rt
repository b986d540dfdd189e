ghost use Rattle.std.specs.Prelude.{◌≡◌, ◌+◌, [], IfOk};
ghost use Rattle.rule_ids.specs.Counted.{counts_of, less, sum_of};

use dnr_base::NoMemory;

/// How many rules there are, and how many of them count for a limit.
#[derive(Clone, Copy, Debug)]
pub struct Counts {
    /// The rules.
    pub rules: usize,
    /// Those with a `regexFilter`.
    pub patterns: usize,
    /// Those that are unsafe.
    pub unsafe_rules: usize,
}

// The sum. That it fits is not known of the lengths of several lists, though no memory holds so many rules.
fn sum(a: usize, b: usize) -> Result<usize, NoMemory>
    ensures { IfOk result (λ sum. sum ≡ a + b) }
{
    a.checked_add(b).ok_or(NoMemory)
}

impl Counts {
    /// Of no rules.
    pub fn none() -> Counts
        ensures { result ≡ counts_of [] }
    {
        Counts {
            rules: 0,
            patterns: 0,
            unsafe_rules: 0,
        }
    }

    /// These and others.
    ///
    /// `NoMemory`: there would be more than a number tells, which no memory holds.
    pub fn and(self, others: Counts) -> Result<Counts, NoMemory>
        ensures { IfOk result (λ counts. counts ≡ sum_of self others) }
    {
        Ok(Counts {
            rules: sum(self.rules, others.rules)?,
            patterns: sum(self.patterns, others.patterns)?,
            unsafe_rules: sum(self.unsafe_rules, others.unsafe_rules)?,
        })
    }

    /// These without others.
    pub fn without(self, others: Counts) -> Counts
        ensures { result ≡ less self others }
    {
        Counts {
            rules: self.rules.saturating_sub(others.rules),
            patterns: self.patterns.saturating_sub(others.patterns),
            unsafe_rules: self.unsafe_rules.saturating_sub(others.unsafe_rules),
        }
    }
}
