//! Where the options of a filter begin.
ghost use Rattle.std.specs.Prelude.{◌≡◌, ◌==◌, ◌&&◌, ◌<◌, false, None, Some, IfSome, length, if◌then◌else◌};
ghost use Rattle.list_spec.specs.Options as options;
ghost use Rattle.abp_parse.specs.Rest.{before, rest_of};

use memchr::memchr;

// What the text from one place on may be.
#[derive(Clone, Copy)]
pub struct Rest {
    // the rest of a value, and then further options
    value: bool,
    // the rest of a name, and then what may follow a name
    name: bool,
    // an option without a `~`, and then further options
    named: bool,
    // a list of options
    options: bool,
}

// Whether a name may have this byte.
fn is_name_byte(byte: u8) -> bool
    ensures { result ≡ options.is_name_byte byte }
{
    byte.is_ascii_alphanumeric() || byte == b'_' || byte == b'-'
}

impl Rest {
    // With this byte before it.
    fn before(self, byte: u8) -> Rest
        ensures { result ≡ before byte self }
    {
        match byte {
            b',' => Rest {
                value: self.options,
                name: self.options,
                named: false,
                options: false,
            },
            b'=' => Rest {
                value: self.value,
                name: self.value,
                named: false,
                options: false,
            },
            b'~' => Rest {
                value: self.value,
                name: false,
                named: false,
                options: self.named,
            },
            _ => {
                let name = self.name && is_name_byte(byte);
                Rest {
                    value: self.value,
                    name,
                    named: name,
                    options: name,
                }
            }
        }
    }
}

// The place of a `$` that may stand before this rest, or else the place of a later one.
fn place_here(byte: u8, place: usize, rest: Rest, later: Option<usize>) -> Option<usize>
    ensures { result ≡ (if byte == 36 && rest.options then Some place else later) }
{
    if byte == b'$' && rest.options {
        Some(place)
    } else {
        later
    }
}

// The place, from the right to the left.
fn place_from_the_end(text: &[u8]) -> Option<usize>
    ensures { result ≡ options.options_place text.now }
{
    let mut place = None;
    let mut rest = Rest {
        value: true,
        name: true,
        named: false,
        options: false,
    };
    let mut i = text.len();
    while i > 0 {
        i -= 1;
        place = place_here(text[i], i, rest, place);
        rest = rest.before(text[i]);
    }
    place
}

// Whether the text has a `$`.
fn has_dollar(text: &[u8]) -> bool
    ensures { result ≡ false → options.options_place text.now ≡ None }
{
    memchr(b'$', text).is_some()
}

/// The place of the leftmost `$` behind which the whole rest is a list of options.
pub fn options_place(text: &[u8]) -> Option<usize>
    ensures place { result ≡ options.options_place text.now }
    ensures within { IfSome result (λ place. place < length text.now) }
{
    // Most filters have no `$`.
    if has_dollar(text) {
        place_from_the_end(text)
    } else {
        None
    }
}
