ghost use Rattle.std.specs.Prelude.{◌≡◌};
ghost use Rattle.session_serve.specs.Serving.{stop_of};
ghost use Rattle.session_serve.specs.declared.stop.ServeStop.TheVariants as stop;

use dnr_base::NoMemory;
use dnr_io::{Failed, LineRefusal};

/// Why a script is not served to its end.
#[derive(Clone, Copy, Debug, PartialEq, Eq)]
pub enum ServeStop {
    /// The source failed, and its count of faults rose.
    ReadFault,
    /// The sink failed, and its count of faults rose.
    WriteFault,
    /// A line is too long, or there are too many.
    TooLong,
    /// Memory ran out.
    NoMemory,
}

impl From<LineRefusal> for ServeStop {
    ghost from_gives = { λ refusal e. e ≡ stop_of refusal };

    fn from(refusal: LineRefusal) -> ServeStop {
        match refusal {
            LineRefusal::ReadFault => ServeStop::ReadFault,
            LineRefusal::LineTooLong => ServeStop::TooLong,
            LineRefusal::NoMemory => ServeStop::NoMemory,
        }
    }
}

impl From<Failed> for ServeStop {
    ghost from_gives = { λ _ e. e ≡ stop.WriteFault };

    fn from(_: Failed) -> ServeStop {
        ServeStop::WriteFault
    }
}

impl From<NoMemory> for ServeStop {
    ghost from_gives = { λ _ e. e ≡ stop.NoMemory };

    fn from(_: NoMemory) -> ServeStop {
        ServeStop::NoMemory
    }
}
