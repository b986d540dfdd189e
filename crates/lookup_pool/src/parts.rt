ghost use Rattle.std.specs.Prelude.{IsTrue};

use crate::Gate;
use std::sync::Wait;

/// What a thread of lookups does in a round. It waits for nobody.
pub trait Seat {
    /// What has to hold of the seat before its work.
    ghost can_work: { Self → Type 0 };

    /// How the seat stands after its work to what it was before.
    ghost worked: { Self → Self → Type 0 };

    /// Whether there is nothing to do: the seat may stay as it is. It is asked at the beginning of a round,
    /// so it has to be cheap. A round starts no thread for such a seat.
    fn is_idle(&self) -> bool
        ensures { IsTrue result → can_work self.now → worked self.now self.now };

    /// Does the seat's work of a round.
    fn work<G: Gate>(&mut self, gate: &G)
        requires { can_work self.old }
        ensures { worked self.old self.new };
}

/// What the writer does in a round. It may wait for the seats' reading.
pub trait RoundWriter {
    /// What has to hold of the writer before its work.
    ghost can_write: { Self → Type 0 };

    /// How the writer stands after its work to what it was before.
    ghost wrote: { Self → Self → Type 0 };

    /// Whether there is nothing to do: the writer may stay as it is. A round starts no thread for it then.
    fn is_idle(&self) -> bool
        ensures { IsTrue result → can_write self.now → wrote self.now self.now };

    /// Does the writer's work of a round.
    fn write<R: Wait, G: Gate>(&mut self, rt: &R, gate: &G)
        requires { can_write self.old }
        ensures { wrote self.old self.new };
}
