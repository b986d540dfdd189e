/// What is told of a round's work while it goes on, so that a test can hold a part of the work back until
/// another part is done. It changes nothing of what a round does, and a call of it may take long.
pub trait Gate {
    /// Called before a seat decides the line of this number, also where it does so once more since lines were dealt anew.
    /// Seats are numbered from 0, lines from 1.
    fn before(&self, seat: u32, line: u32);

    /// Called after the writer has served the update in the line of this number.
    fn after_update(&self, line: u32);
}

/// The gate that holds nothing back: the one of every round that is no test.
#[derive(Clone, Copy, Debug, PartialEq, Eq)]
pub struct NoGate;

impl Gate for NoGate {
    fn before(&self, _seat: u32, _line: u32) {}

    fn after_update(&self, _line: u32) {}
}
