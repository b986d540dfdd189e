ghost use Rattle.std.specs.Prelude.{◌≡◌};
ghost use Rattle.keep_run.specs.Stops.{stop_of_line, stop_of_reading};
ghost use Rattle.keep_run.specs.declared.stop.KeepStop.TheVariants as stop;
ghost use Rattle.keep_run.specs.declared.stop.LineStop.TheVariants as at_line;

use dnr_base::NoMemory;
use dnr_io::{Failed, LineRefusal};

// Why a line has no answer.
#[derive(Clone, Copy, Debug, PartialEq, Eq)]
pub(crate) enum LineStop {
    // The disk failed.
    DiskFault,
    // Memory ran out.
    NoMemory,
}

impl From<NoMemory> for LineStop {
    ghost from_gives = { λ _ e. e ≡ at_line.NoMemory };

    fn from(_: NoMemory) -> LineStop {
        LineStop::NoMemory
    }
}

// Why the lines of a script are not answered to the last.
#[derive(Clone, Copy, Debug, PartialEq, Eq)]
pub(crate) enum KeepStop {
    // The source failed.
    ReadFault,
    // The sink failed.
    WriteFault,
    // The disk failed.
    DiskFault,
    // A line is too long, or there are too many.
    TooLong,
    // Memory ran out.
    NoMemory,
}

impl From<LineStop> for KeepStop {
    ghost from_gives = { λ given e. e ≡ stop_of_line given };

    fn from(given: LineStop) -> KeepStop {
        match given {
            LineStop::DiskFault => KeepStop::DiskFault,
            LineStop::NoMemory => KeepStop::NoMemory,
        }
    }
}

impl From<LineRefusal> for KeepStop {
    ghost from_gives = { λ given e. e ≡ stop_of_reading given };

    fn from(given: LineRefusal) -> KeepStop {
        match given {
            LineRefusal::ReadFault => KeepStop::ReadFault,
            LineRefusal::LineTooLong => KeepStop::TooLong,
            LineRefusal::NoMemory => KeepStop::NoMemory,
        }
    }
}

impl From<Failed> for KeepStop {
    ghost from_gives = { λ _ e. e ≡ stop.WriteFault };

    fn from(_: Failed) -> KeepStop {
        KeepStop::WriteFault
    }
}

impl From<NoMemory> for KeepStop {
    ghost from_gives = { λ _ e. e ≡ stop.NoMemory };

    fn from(_: NoMemory) -> KeepStop {
        KeepStop::NoMemory
    }
}
