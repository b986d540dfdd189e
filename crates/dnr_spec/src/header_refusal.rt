/// Why a header change is not read.
#[derive(Clone, Copy, Debug, PartialEq, Eq)]
pub enum HeaderRefusal {
    /// Its name is no field name, or has more than 256 bytes.
    BadName,
    /// Its value has a CR, an LF or a NUL, or more than 8,192 bytes.
    BadValue,
    /// It is an `append` or a `set`, and has no value.
    ValueMissing,
    /// It is a `remove`, and has a value.
    ValueGiven,
    /// It is an `append` to a request header that none may be appended to.
    AppendNotAllowed,
    /// Memory ran out.
    NoMemory,
}
