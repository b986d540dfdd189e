ghost use Rattle.std.specs.Prelude.{◌≡◌, None};
ghost use Rattle.std.specs.Io.{WritesAtMost};

use crate::{Failed, Sink};
use dnr_base::count_fault;
use std::io::{ErrorKind, Write};
use std::marker::Model;

/// A writer of the standard library as a sink, such as standard output. It tells nothing.
///
/// The writer must not keep back what it says that it took, since a fault would then be lost.
#[derive(Drop)]
pub struct Output<W> {
    inner: W,
    faults: u64,
}

impl<W> Model for Output<W> {
    ghost use Rattle.std.specs.Prelude.{ℕ};

    ghost Value = { ℕ };

    ghost view = { λ output. output.faults };
}

impl<W: Write + Drop> Output<W> {
    /// The writer as a sink that has had no fault.
    pub fn new(inner: W) -> Output<W>
        ensures taken { ⟦<Output<W> as Sink>⟧.taken result ≡ None }
        ensures faults { ⟦<Output<W> as Sink>⟧.faults result ≡ 0 }
    {
        Output { inner, faults: 0 }
    }
}

impl<W: Write + Drop> Sink for Output<W> {
    ghost taken = { λ _. None };

    ghost faults = { λ faults. faults };

    fn faults(&self) -> u64 {
        self.faults
    }

    fn write(&mut self, piece: &[u8]) -> Result<usize, Failed> {
        match write_some(&mut self.inner, piece) {
            Ok(count) if 0 < count || piece.is_empty() => Ok(count),
            _ => {
                count_fault(&mut self.faults);
                Err(Failed)
            }
        }
    }
}

/// One write, tried again where a signal interrupts it.
pub fn write_some<W: Write>(writer: &mut W, piece: &[u8]) -> Result<usize, Failed>
    ensures { WritesAtMost result piece.now }
{
    for _ in 0..u64::MAX {
        match writer.write(piece) {
            Ok(count) => return Ok(count),
            Err(error) if error.kind() == ErrorKind::Interrupted => {}
            Err(_) => return Err(Failed),
        }
    }
    Err(Failed)
}
