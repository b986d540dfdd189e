ghost use Rattle.std.specs.Prelude.{◌≡◌, [], OnOk};
ghost use Rattle.dnr_base.specs.declared.direction.Direction as direction;
ghost use Rattle.dnr_spec.specs.Headers as spec;

use dnr_base::{Direction, NoMemory, Offered, Operation};
use std::alloc::Global;
use std::collections::HashMap;

// The most changes of a direction that take effect.
const MAX_EFFECTIVE: u32 = 128;

// What took effect of one direction: how many changes, and the first of each header.
#[derive(Drop)]
pub(crate) struct Effects<'a> {
    pub count: u32,
    pub first: HashMap<&'a str, (Operation, u32)>,
}

// Whether a change may take effect where this one on the same header came first.
fn may_follow(first: Operation, same_extension: bool, later: Operation) -> bool
    ensures { result ≡ spec.may_follow first same_extension later }
{
    match first {
        Operation::Append => later == Operation::Append,
        Operation::Set => later == Operation::Append && same_extension,
        Operation::Remove => false,
    }
}

impl<'a> Effects<'a> {
    ghost use Rattle.header_actions.specs.Effects.{Keeps, Goes, Remembers, admits, first_kept};

    pub(crate) fn new(alloc: Global) -> Effects<'a>
        ensures { (d : direction.Direction) → Keeps result d [] }
    {
        Effects {
            count: 0,
            first: HashMap::new(alloc),
        }
    }

    // Whether the offer, which is of this direction, takes effect.
    fn admits(&self, offer: &Offered) -> bool
        ensures { result ≡ admits self.now.count (first_kept self.now offer.now.name) offer.now }
    {
        if self.count >= MAX_EFFECTIVE {
            return false;
        }
        match self.first.get(offer.name.as_str()) {
            None => true,
            Some((first, age)) => may_follow(*first, *age == offer.age, offer.operation),
        }
    }

    // Keeps the offer as the first change of its header, where none is kept.
    fn remember(&mut self, offer: &'a Offered) -> Result<(), NoMemory>
        ensures { OnOk result (Remembers self.old self.new offer.now) }
    {
        let name = offer.name.as_str();
        if self.first.contains_key(name) {
            return Ok(());
        }
        self.first.insert(name, (offer.operation, offer.age))?;
        Ok(())
    }

    // Takes the offer in, which is of this direction, where it takes effect, and says whether it does.
    pub(crate) fn consider(&mut self, offer: &'a Offered) -> Result<bool, NoMemory>
        ensures { Goes self.old self.new offer.now result }
    {
        if !self.admits(offer) {
            return Ok(false);
        }
        self.remember(offer)?;
        self.count += 1;
        Ok(true)
    }
}
