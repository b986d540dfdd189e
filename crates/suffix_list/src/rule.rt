ghost use Rattle.std.specs.Prelude.{◌≡◌};
ghost use Rattle.dnr_spec.specs.Hosts.{labels_of};
ghost use Rattle.dnr_spec.specs.Suffixes as spec;
ghost use Rattle.suffix_list.specs.Kept as kept;

use crate::names::label_count;
use dnr_spec::split_last_label;

// A rule with its labels in one text, a dot between each two.
#[derive(Drop)]
pub struct Rule {
    pub exception: bool,
    pub text: String,
}

impl Rule {
    // Whether it is a rule without `*`, and no exception.
    pub fn is_plain(&self) -> bool
        ensures { result ≡ kept.is_plain self.now }
    {
        !self.exception && has_no_star(self.text.as_bytes())
    }

    // What follows the first label of a rule whose only `*` is that label, and that is no exception.
    pub fn behind_star(&self) -> Option<&str>
        ensures { kept.IsBehindStar self.now result }
    {
        if self.exception {
            return None;
        }
        let rest = self.text.as_str().strip_prefix("*.")?;
        if has_no_star(rest.as_bytes()) {
            Some(rest)
        } else {
            None
        }
    }

    // How many labels it has, where it is an exception that matches a name, or 0.
    pub fn exception_len(&self, name: &str) -> usize
        ensures { result ≡ kept.len_if (kept.is_matching_exception (labels_of name.now)) self.now }
    {
        if self.exception && matches_name(self.text.as_str(), name) {
            label_count(self.text.as_str())
        } else {
            0
        }
    }

    // How many labels it has, where it is no exception and matches a name, or 0.
    pub fn rule_len(&self, name: &str) -> usize
        ensures { result ≡ kept.len_if (kept.is_matching_rule (labels_of name.now)) self.now }
    {
        if !self.exception && matches_name(self.text.as_str(), name) {
            label_count(self.text.as_str())
        } else {
            0
        }
    }
}

fn has_no_star(text: &[u8]) -> bool
    ensures { result ≡ kept.has_no_star text.now }
{
    text.iter().all(|b| *b != b'*')
}

// Compares the labels from the right.
fn matches_name(text: &str, host: &str) -> bool
    ensures { result ≡ spec.matches (labels_of text.now) (labels_of host.now) }
{
    let mut rule = text;
    let mut name = host;
    loop {
        let (rule_front, rule_label) = split_last_label(rule);
        let (name_front, name_label) = split_last_label(name);
        if !fits_label(rule_label, name_label) {
            return false;
        }
        let Some(others) = rule_front else {
            return true;
        };
        let Some(front) = name_front else {
            return false;
        };
        rule = others;
        name = front;
    }
}

fn fits_label(rule: &str, label: &str) -> bool
    ensures { result ≡ spec.fits_label rule.now label.now }
{
    rule == "*" || rule == label
}
