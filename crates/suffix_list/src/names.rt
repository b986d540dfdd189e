ghost use Rattle.std.specs.Prelude.{◌≡◌, ◌+◌, ◌==◌, count_by, length};
ghost use Rattle.std.specs.List.{list_any};
ghost use Rattle.std.specs.Option.{option_copied};
ghost use Rattle.dnr_spec.specs.Hosts.{labels_of};
ghost use Rattle.dnr_spec.specs.Suffixes as spec;

use dnr_spec::{is_ip_host, split_first_label};

// The host without one dot at its end.
pub fn without_dot(host: &str) -> &str
    ensures { result.now ≡ spec.without_dot host.now }
{
    if host.ends_with('.') {
        &host[..host.len() - 1]
    } else {
        host
    }
}

// Whether the name is no address and has no empty label.
pub fn is_domain(name: &str) -> bool
    ensures { result ≡ spec.is_domain name.now }
{
    !is_ip_host(name) && !has_empty_label(name)
}

fn has_empty_label(name: &str) -> bool
    ensures { result ≡ list_any spec.is_empty (labels_of name.now) }
{
    let mut rest = name;
    loop {
        let (label, others) = split_first_label(rest);
        if label.is_empty() {
            return true;
        }
        let Some(others) = others else {
            return false;
        };
        rest = others;
    }
}

// How many labels a name has.
pub fn label_count(name: &str) -> usize
    ensures { result ≡ length (labels_of name.now) }
{
    dot_count(name.as_bytes()) + 1
}

fn dot_count(name: &[u8]) -> usize
    ensures { result ≡ count_by (λ b. b == 46) name.now }
{
    name.iter().filter(|b| **b == b'.').count()
}

// The last labels of a name, one more than its suffix has, where there are so many.
pub fn labels_from(name: &str, suffix: usize) -> Option<&str>
    ensures { option_copied result ≡ spec.last_labels (suffix + 1) (labels_of name.now) }
{
    let mut rest = name;
    let mut left = label_count(name);
    if left <= suffix {
        return None;
    }
    while left - 1 > suffix {
        let (_, others) = split_first_label(rest);
        rest = others?;
        left -= 1;
    }
    Some(rest)
}
