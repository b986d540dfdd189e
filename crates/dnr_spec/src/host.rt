ghost use Rattle.std.specs.Prelude.{◌≡◌, ◌<◌, [], ◌∷◌, ◌++◌, length, MatchOption, IfSome};
ghost use Rattle.std.specs.List.{list_all};
ghost use Rattle.std.specs.Char.{is_ascii_digit};
ghost use Rattle.dnr_spec.specs.Hosts as spec;

/// Whether the host of a URL is an IP address: it begins with `[`, or its last label has digits alone (URL
/// Standard, "Host writing" and the ends-in-a-number checker). A dot at its end is not cut off here.
///
/// It takes no memory.
pub fn is_ip_host(host: &str) -> bool
    ensures { result ≡ spec.is_ip_host host.now }
{
    let (_, last) = split_last_label(host);
    host.as_bytes().starts_with(b"[") || is_number(last)
}

fn is_number(label: &str) -> bool
    ensures { result ≡ spec.is_number label.now }
{
    !label.is_empty() && has_digits_alone(label.as_bytes())
}

fn has_digits_alone(label: &[u8]) -> bool
    ensures { result ≡ list_all is_ascii_digit label.now }
{
    label.iter().all(|b| b.is_ascii_digit())
}

/// The first label of a host, and what stands behind its dot where there is one.
pub fn split_first_label(host: &str) -> (&str, Option<&str>)
    ensures labels { MatchOption result.1 (spec.labels_of host.now ≡ result.0.now ∷ [])
        (λ rest. spec.labels_of host.now ≡ result.0.now ∷ spec.labels_of rest.now) }
    ensures shorter { IfSome result.1 (λ rest. length rest.now < length host.now) }
{
    match host.split_once('.') {
        Some((label, rest)) => (label, Some(rest)),
        None => (host, None),
    }
}

/// What stands before the last dot of a host where there is one, and its last label.
pub fn split_last_label(host: &str) -> (Option<&str>, &str)
    ensures labels { MatchOption result.0 (spec.labels_of host.now ≡ result.1.now ∷ [])
        (λ front. spec.labels_of host.now ≡ spec.labels_of front.now ++ result.1.now ∷ []) }
    ensures shorter { IfSome result.0 (λ front. length front.now < length host.now) }
{
    match host.rsplit_once('.') {
        Some((front, label)) => (Some(front), label),
        None => (None, host),
    }
}
