ghost use Rattle.std.specs.Prelude.{◌≡◌};

/// How a command ended.
#[derive(Clone, Copy, Debug, PartialEq, Eq)]
pub enum Status {
    /// All was read, decided and written.
    Done,
    /// A file is refused, for the reason that was written.
    Refused,
    /// The words name no command.
    Usage,
    /// A file can't be read.
    ReadFault,
    /// The output can't be written.
    WriteFault,
    /// Memory ran out.
    NoMemory,
    /// A file, or a line of a script, is longer than its limit, or a script has too many lines.
    FileTooLong,
    /// The disk under a kept list failed.
    DiskFault,
}

impl Status {
    ghost use Rattle.dnr_spec.specs.Status.{status_value};

    /// The value that a process ends with.
    pub fn value(self) -> u8
        ensures { result ≡ status_value self }
    {
        match self {
            Status::Done => 0,
            Status::Refused => 1,
            Status::Usage => 2,
            Status::ReadFault => 3,
            Status::WriteFault => 4,
            Status::NoMemory => 5,
            Status::FileTooLong => 6,
            Status::DiskFault => 7,
        }
    }
}
