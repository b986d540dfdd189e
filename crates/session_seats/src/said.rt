use std::marker::Model;

/// What a seat has answered to a line of its round. A clause sees what it says.
#[derive(Debug, Drop)]
pub struct Said<'a> {
    /// The place of the line in the round, from 0.
    pub place: usize,
    /// The count of the updates and batches by which it is answered.
    pub number: u32,
    /// Whether the host of patterns failed, which the text says then.
    pub failed: bool,
    /// The line that is printed.
    pub text: &'a str,
}

impl<'a> Model for Said<'a> {
    ghost use Rattle.session_seats.specs.Said as spec;

    ghost Value = { spec.Said };

    ghost view = { λ s. record { place = s.place; number = s.number; failed = s.failed; text = s.text.now } };
}
