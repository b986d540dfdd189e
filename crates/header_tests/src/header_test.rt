ghost use Rattle.std.specs.Prelude.{◌≡◌, ◌&&◌, length, nat_lt, bytes_eq, IfOk};
ghost use Rattle.std.specs.List.{list_any};
ghost use Rattle.dnr_spec.specs.HeaderTests as spec;

use crate::ValuePattern;
use dnr_base::{Copied, Header, Items, NoMemory, Text};
use std::alloc::Global;
use std::marker::Model;

/// A test of response headers: Chrome's reference, `HeaderInfo`. A clause sees the test of `dnr_spec`.
#[derive(Debug, Drop)]
pub struct HeaderTest {
    /// The header's name, in lower case.
    pub name: Text,
    /// The patterns of which one must fit a value of the header. `None`: any value will do.
    pub values: Option<Items<ValuePattern>>,
    /// The patterns of which none may fit a value of the header.
    pub excluded: Items<ValuePattern>,
}

impl Model for HeaderTest {
    ghost Value = { spec.HeaderTest };

    ghost view = { λ t. record { name = t.name; values = t.values; excluded = t.excluded } };
}

impl HeaderTest {
    /// Whether the headers have one of the name, with a value that is asked for and none that is excluded. A
    /// header with several values stands once for each. It takes no memory.
    #[tactic(auto, unfolding(dnr_spec::specs::HeaderTests::test_holds))]
    pub fn holds(&self, headers: &[Header]) -> bool
        ensures { result ≡ spec.test_holds self.now headers.now }
    {
        let name = self.name.as_str();
        has_value(name, headers)
            && some_fits(&self.values, name, headers)
            && !has_fitting(self.excluded.as_slice(), name, headers)
    }

    /// An equal test.
    ///
    /// `NoMemory`: no memory is left for its name and its patterns.
    pub fn copy(&self, alloc: Global) -> Result<HeaderTest, NoMemory>
        ensures { IfOk result (λ copy. copy ≡ self.now) }
    {
        Ok(HeaderTest {
            name: self.name.copy(alloc)?,
            values: Copied::copied(&self.values, alloc)?,
            excluded: self.excluded.copy(alloc)?,
        })
    }
}

impl Copied for HeaderTest {
    fn copied(&self, alloc: Global) -> Result<HeaderTest, NoMemory> {
        self.copy(alloc)
    }
}

fn any_is_named(headers: &[Header], name: &str) -> bool
    ensures { result ≡ list_any (λ header. bytes_eq header.name name.now) headers.now }
{
    headers.iter().any(|header| header.name.as_str() == name)
}

// Whether there is a value of the name.
fn has_value(name: &str, headers: &[Header]) -> bool
    ensures { result ≡ nat_lt 0 (length (spec.values_of name.now headers.now)) }
{
    any_is_named(headers, name)
}

// Whether one of the patterns fits the value.
fn fits_some(patterns: &[ValuePattern], value: &str) -> bool
    ensures { result ≡ spec.fits_some patterns.now value.now }
{
    patterns.iter().any(|pattern| pattern.fits(value))
}

fn any_is_fitting(headers: &[Header], name: &str, patterns: &[ValuePattern]) -> bool
    ensures { result ≡ list_any (λ header. bytes_eq header.name name.now && spec.fits_some patterns.now header.value) headers.now }
{
    headers.iter().any(|header| header.name.as_str() == name
        && fits_some(patterns, header.value.as_str()))
}

// Whether there is a value of the name that one of the patterns fits.
fn has_fitting(patterns: &[ValuePattern], name: &str, headers: &[Header]) -> bool
    ensures { result ≡ list_any (spec.fits_some patterns.now) (spec.values_of name.now headers.now) }
{
    any_is_fitting(headers, name, patterns)
}

// Whether a value of the name is one that is asked for.
fn some_fits(values: &Option<Items<ValuePattern>>, name: &str, headers: &[Header]) -> bool
    ensures { result ≡ spec.some_fits values.now (spec.values_of name.now headers.now) }
{
    match values {
        None => true,
        Some(patterns) => has_fitting(patterns.as_slice(), name, headers),
    }
}

/// Whether one of the tests holds on the headers. It takes no memory.
pub fn some_holds(tests: &[HeaderTest], headers: &[Header]) -> bool
    ensures { result ≡ spec.some_test_holds tests.now headers.now }
{
    tests.iter().any(|test| test.holds(headers))
}
