ghost use Rattle.std.specs.Prelude.{◌≡◌, true, IfOk, IfErr};
ghost use Rattle.dnr_spec.specs.HeaderTests as spec;
ghost use Rattle.header_tests.specs.Refused.{IsRefused};

use crate::words::{is_value_pattern, pieces_of};
use dnr_base::{Copied, NoMemory};
use dnr_spec::{Piece, ValueRefusal};
use std::alloc::Global;
use std::marker::Model;

/// A pattern of header values: Chrome's reference, `HeaderInfo.values`. `*` stands for any number of bytes, `?`
/// for at most one, and a `\` makes a `*`, `?` or `\` behind it plain. A clause sees it as its text.
#[derive(Debug, Drop)]
pub struct ValuePattern {
    text: String,
    pieces: Vec<Piece>,
}

impl Model for ValuePattern {
    ghost use Rattle.std.specs.Prelude.{List, ℕ, string_bytes};

    ghost Value = { List ℕ };

    ghost view = { λ p. string_bytes p.text };

    ghost use Rattle.header_tests.specs.Read.{IsRead};

    ghost invariant = { λ p. IsRead (string_bytes p.text) p.pieces.items };
}

impl ValuePattern {
    /// Reads a pattern.
    ///
    /// # Errors
    ///
    /// - `BadValuePattern`: the text has a byte past ASCII, a `\` before another byte than `*`, `?` and `\` or
    ///   before none, or more than 8,192 bytes.
    /// - `NoMemory`: the text is a pattern, and memory ran out for it.
    pub fn read(alloc: Global, text: &str) -> Result<ValuePattern, ValueRefusal>
        ensures read { IfOk result (λ pattern. (pattern ≡ text.now) × (spec.is_value_pattern text.now ≡ true)) }
        ensures refused { IfErr result (IsRefused text.now) }
    {
        if !is_value_pattern(text) {
            return Err(ValueRefusal::BadValuePattern);
        }
        ValuePattern::build(alloc, text).map_err(|_| ValueRefusal::NoMemory)
    }

    // The pattern of a text that is one.
    fn build(alloc: Global, text: &str) -> Result<ValuePattern, NoMemory>
        requires { spec.is_value_pattern text.now ≡ true }
        ensures { IfOk result (λ pattern. pattern ≡ text.now) }
    {
        let pieces = pieces_of(alloc, text.as_bytes())?;
        let text = String::from_str(alloc, text)?;
        Ok(ValuePattern { text, pieces })
    }

    /// The text that was read. Read again it gives the same pattern.
    pub fn text(&self) -> &str
        ensures value { result.now ≡ self.now }
        ensures kept { spec.is_value_pattern self.now ≡ true }
    {
        self.text.as_str()
    }

    /// Whether the pattern fits the whole value, whatever the case of ASCII letters. It takes no memory.
    pub fn fits(&self, value: &str) -> bool
        ensures { result ≡ spec.fits_value self.now value.now }
    {
        wildcard::fits(self.pieces.as_slice(), value.as_bytes(), true)
    }

    /// An equal pattern.
    ///
    /// `NoMemory`: no memory is left for its text and pieces.
    pub fn copy(&self, alloc: Global) -> Result<ValuePattern, NoMemory>
        ensures { IfOk result (λ copy. copy ≡ self.now) }
    {
        ValuePattern::build(alloc, self.text.as_str())
    }
}

impl Copied for ValuePattern {
    fn copied(&self, alloc: Global) -> Result<ValuePattern, NoMemory> {
        self.copy(alloc)
    }
}
