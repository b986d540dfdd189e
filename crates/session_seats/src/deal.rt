//! The lines of a round, as they are dealt to seats.
ghost use Rattle.std.specs.Prelude.{◌≡◌, All};
ghost use Rattle.session_seats.specs.Reading.{IsTaken, seen_lines, with_dealt};

use crate::round_line::RoundLine;
use crate::round_lines::RoundLines;
use std::marker::Model;

/// The lines of a round, and the places of those that are dealt to seats. A clause sees the round with these.
#[derive(Drop)]
pub struct Deal<'a> {
    round: &'a RoundLines,
    places: &'a [usize],
}

impl<'a> Model for Deal<'a> {
    ghost use Rattle.session_seats.specs.Reading.{ReadRound, with_dealt};

    ghost Value = { ReadRound };

    ghost view = { λ deal. with_dealt deal.places.now deal.round.now };
}

impl<'a> Deal<'a> {
    /// The round, where the lines at these places are dealt.
    pub fn new(round: &'a RoundLines, places: &'a [usize]) -> Deal<'a>
        ensures { result ≡ with_dealt places.now round.now }
    {
        Deal { round, places }
    }

    /// The lines of the round.
    pub fn lines(&self) -> &[RoundLine]
        ensures value { result.now ≡ self.now.lines }
        ensures reads { self.now.reads ≡ seen_lines self.now.lines }
        ensures taken { All IsTaken self.now.lines }
    {
        self.round.lines()
    }

    /// The places of those that are dealt to seats, in order.
    pub fn places(&self) -> &[usize]
        ensures { result.now ≡ self.now.dealt }
    {
        self.places
    }

    /// Whether a line asks for an update.
    pub fn updates(&self) -> bool {
        self.round.updates()
    }
}
