ghost use Rattle.std.specs.Prelude.{◌≡◌, [], IfOk};

use crate::effects::Effects;
use dnr_base::{Direction, NoMemory, Offered};
use std::alloc::Global;

// What took effect of both directions.
#[derive(Drop)]
pub(crate) struct Standing<'a> {
    requests: Effects<'a>,
    responses: Effects<'a>,
}

impl<'a> Standing<'a> {
    ghost use Rattle.header_actions.specs.Standing.{Stands, GoesOn};

    pub(crate) fn new(alloc: Global) -> Standing<'a>
        ensures { Stands result [] }
    {
        Standing {
            requests: Effects::new(alloc),
            responses: Effects::new(alloc),
        }
    }

    // Takes the offer in where it takes effect, and says whether it does.
    pub(crate) fn consider(&mut self, offer: &'a Offered) -> Result<bool, NoMemory>
        ensures { GoesOn self.old self.new offer.now result }
    {
        match offer.direction {
            Direction::Request => self.requests.consider(offer),
            Direction::Response => self.responses.consider(offer),
        }
    }
}
