ghost use Rattle.std.specs.Prelude.{◌≡◌, IfOk, IfErr, is_some};
ghost use Rattle.std.specs.Option.{option_copied};
ghost use Rattle.std.specs.Str.{str_to_ascii_lowercase};
ghost use Rattle.dnr_spec.specs.Headers as spec;
ghost use Rattle.header_actions.specs.Refused.{IsRefused};

use crate::words::{is_appendable, is_name, is_value};
use dnr_base::{Copied, Direction, NoMemory, Operation, Text};
use dnr_spec::HeaderRefusal;
use std::alloc::Global;
use std::marker::Model;

/// A change of a header that was read from a rule: Chrome's reference, `ModifyHeaderInfo`. It has a value exactly
/// where it is no `remove`.
#[derive(Debug, Drop)]
pub struct HeaderOp {
    name: Text,
    operation: Operation,
    value: Option<Text>,
}

impl Model for HeaderOp {
    ghost use Rattle.std.specs.Prelude.{◌≡◌, is_some};
    ghost use Rattle.dnr_spec.specs.Headers as spec;

    ghost Value = { spec.HeaderOp };

    ghost view = { λ op. record { name = op.name; operation = op.operation; value = op.value } };

    ghost invariant = { λ op. is_some op.value ≡ spec.needs_value op.operation };
}

impl HeaderOp {
    /// Reads a change of a rule: the header's name in any case, what is done, and the value. The change has
    /// the name in lower case.
    ///
    /// # Errors
    ///
    /// The first of these that holds:
    ///
    /// - `BadName`: the name is no field name (RFC 9110, section 5.1), or has more than 256 bytes.
    /// - `BadValue`: the value has a CR, an LF or a NUL, or more than 8,192 bytes.
    /// - `ValueMissing`: an `append` or a `set` has no value.
    /// - `ValueGiven`: a `remove` has a value.
    /// - `AppendNotAllowed`: an `append` names a request header that none may be appended to.
    ///
    /// Or `NoMemory`, where memory ran out for a change that could be read.
    pub fn read(
        alloc: Global,
        direction: Direction,
        name: &str,
        operation: Operation,
        value: Option<&str>,
    ) -> Result<HeaderOp, HeaderRefusal>
        ensures read { IfOk result (λ op. spec.header_op_of direction name.now operation (option_copied value.entry) ≡ Ok op) }
        ensures refused { IfErr result (IsRefused (spec.header_op_of direction name.now operation (option_copied value.entry))) }
    {
        if !is_name(name) {
            return Err(HeaderRefusal::BadName);
        }
        if value.is_some_and(|value| !is_value(value)) {
            return Err(HeaderRefusal::BadValue);
        }
        let needs_value = operation != Operation::Remove;
        if needs_value && value.is_none() {
            return Err(HeaderRefusal::ValueMissing);
        }
        if !needs_value && value.is_some() {
            return Err(HeaderRefusal::ValueGiven);
        }
        if operation == Operation::Append
            && direction == Direction::Request
            && !is_appendable(name)
        {
            return Err(HeaderRefusal::AppendNotAllowed);
        }
        HeaderOp::build(alloc, name, operation, value).map_err(|_| HeaderRefusal::NoMemory)
    }

    // The change with the name in lower case.
    fn build(
        alloc: Global,
        name: &str,
        operation: Operation,
        value: Option<&str>,
    ) -> Result<HeaderOp, NoMemory>
        requires { is_some value ≡ spec.needs_value operation }
        ensures { IfOk result (λ op. op ≡ record { name = str_to_ascii_lowercase name.now; operation = operation; value = option_copied value.entry }) }
    {
        let name = Text::build(name.to_ascii_lowercase(alloc)?);
        let value = match value {
            Some(value) => Some(Text::build(String::from_str(alloc, value)?)),
            None => None,
        };
        Ok(HeaderOp {
            name,
            operation,
            value,
        })
    }

    /// The header's name, in lower case.
    pub fn name(&self) -> &str
        ensures { result.now ≡ self.now.name }
    {
        self.name.as_str()
    }

    /// What is done to the header.
    pub fn operation(&self) -> Operation
        ensures { result ≡ self.now.operation }
    {
        self.operation
    }

    /// The value that is added: there is one exactly where the change is no `remove`.
    pub fn value(&self) -> Option<&str>
        ensures value { option_copied result ≡ self.now.value }
        ensures due { is_some self.now.value ≡ spec.needs_value self.now.operation }
    {
        self.value.as_ref().map(Text::as_str)
    }

    /// An equal change.
    ///
    /// `NoMemory`: no memory is left for its texts.
    pub fn copy(&self, alloc: Global) -> Result<HeaderOp, NoMemory>
        ensures { IfOk result (λ copy. copy ≡ self.now) }
    {
        let value = match &self.value {
            Some(value) => Some(value.copy(alloc)?),
            None => None,
        };
        Ok(HeaderOp {
            name: self.name.copy(alloc)?,
            operation: self.operation,
            value,
        })
    }
}

impl Copied for HeaderOp {
    fn copied(&self, alloc: Global) -> Result<HeaderOp, NoMemory> {
        self.copy(alloc)
    }
}
