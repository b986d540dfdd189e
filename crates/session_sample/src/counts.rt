// What is counted.
ghost use Rattle.std.specs.Prelude.{◌≡◌, ◌+◌, IfOk};
ghost use Rattle.session_spec.specs.Sample as spec;

use dnr_base::NoMemory;
use rule_spec::Outcome;
use session_spec::Tally;

pub(crate) fn nothing_asked() -> Tally
    ensures { result ≡ spec.nothing_asked }
{
    Tally {
        requests: 0,
        none: 0,
        block: 0,
        allow: 0,
        redirect: 0,
        upgrade: 0,
    }
}

// The counts with one request more.
pub(crate) fn with_request(mut tally: Tally) -> Result<Tally, NoMemory>
    ensures { IfOk result (λ new. new ≡ spec.with_request tally) }
{
    tally.requests = one_more(tally.requests)?;
    Ok(tally)
}

// The counts with one verdict more.
pub(crate) fn with_outcome(mut tally: Tally, outcome: Outcome) -> Result<Tally, NoMemory>
    ensures { IfOk result (λ new. new ≡ spec.with_outcome outcome tally) }
{
    match outcome {
        Outcome::None => tally.none = one_more(tally.none)?,
        Outcome::Block => tally.block = one_more(tally.block)?,
        Outcome::Redirect => tally.redirect = one_more(tally.redirect)?,
        Outcome::Upgrade => tally.upgrade = one_more(tally.upgrade)?,
        Outcome::Allow => tally.allow = one_more(tally.allow)?,
    }
    Ok(tally)
}

// No session asks for more than a `u32` counts.
fn one_more(count: u32) -> Result<u32, NoMemory>
    ensures { IfOk result (λ more. more ≡ count + 1) }
{
    match count.checked_add(1) {
        Some(more) => Ok(more),
        None => Err(NoMemory),
    }
}
