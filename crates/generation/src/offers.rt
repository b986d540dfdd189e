ghost use Rattle.std.specs.Prelude.{◌≡◌, ◌++◌, map, IfOk, [], ◌∷◌};
ghost use Rattle.std.specs.List.{flat_map};
ghost use Rattle.generation.specs.Choice as choice;
ghost use Rattle.rule_spec.specs.Scan as spec;

use crate::kept::Kept;
use crate::live::Live;
use crate::offer::Offer;
use crate::sorted::changing;
use dnr_base::{Direction, NoMemory, Offered};
use dnr_rules::Action;
use header_actions::HeaderOp;
use std::alloc::Global;

// Adds the changes of a list of a rule, whose extension has this age.
fn add_ops<'a>(
    mut offers: Vec<Offer<'a>>,
    age: u32,
    extension: &'a str,
    set: &'a str,
    id: u32,
    direction: Direction,
    ops: &'a [HeaderOp],
) -> Result<Vec<Offer<'a>>, NoMemory>
    ensures { IfOk result (λ new. new.items ≡ offers.entry.items ++ spec.offers_by age
        (record { ext = extension.now; set = set.now; id = id }) direction ops.now) }
{
    for op in ops {
        offers.push(Offer {
            age,
            direction,
            op,
            extension,
            set,
            id,
        })?;
    }
    Ok(offers)
}

// Adds the changes of a rule.
fn add_live<'a>(
    offers: Vec<Offer<'a>>,
    kept: &Kept<'a>,
    live: &Live<'a>,
) -> Result<Vec<Offer<'a>>, NoMemory>
    ensures { IfOk result (λ new. new.items ≡ offers.entry.items ++ choice.offers_by_live kept.now live.now) }
{
    let Action::ModifyHeaders(ops) = live.rule.action() else {
        return Ok(offers);
    };
    let (age, name, set, id) = (kept.age, kept.name, live.set, live.rule.id());
    let offers = add_ops(
        offers,
        age,
        name,
        set,
        id,
        Direction::Request,
        ops.request.as_slice(),
    )?;
    add_ops(
        offers,
        age,
        name,
        set,
        id,
        Direction::Response,
        ops.response.as_slice(),
    )
}

// Adds the changes of rules of an extension.
fn add_lives<'a>(
    offers: Vec<Offer<'a>>,
    kept: &Kept<'a>,
    lives: &[Live<'a>],
) -> Result<Vec<Offer<'a>>, NoMemory>
    ensures { IfOk result (λ new. new.items ≡ offers.entry.items ++ flat_map
        (choice.offers_by_live kept.now) lives.now) }
{
    let mut offers = offers;
    for live in lives {
        offers = add_live(offers, kept, live)?;
    }
    Ok(offers)
}

// Adds the changes of an extension.
fn add_kept<'a>(
    alloc: Global,
    offers: Vec<Offer<'a>>,
    kept: &Kept<'a>,
) -> Result<Vec<Offer<'a>>, NoMemory>
    ensures { IfOk result (λ new. new.items ≡ offers.entry.items ++ choice.offers_by_kept kept.now) }
{
    let lives = changing(alloc, kept)?;
    add_lives(offers, kept, lives.as_slice())
}

// The changes that all extensions offer, the newest first.
pub(crate) fn offers<'a>(alloc: Global, kepts: &[Kept<'a>]) -> Result<Vec<Offer<'a>>, NoMemory>
    ensures { IfOk result (λ offers. offers.items ≡ choice.offers_by_all kepts.now) }
{
    let mut offers = Vec::new(alloc);
    for back in 0..kepts.len() {
        offers = add_kept(alloc, offers, &kepts[kepts.len() - 1 - back])?;
    }
    Ok(offers)
}

// What the choice between them looks at.
pub(crate) fn offered(alloc: Global, offers: &[Offer<'_>]) -> Result<Vec<Offered>, NoMemory>
    ensures { IfOk result (λ list. list.items ≡ map spec.offered offers.now) }
{
    let mut list = Vec::new(alloc);
    for offer in offers {
        list.push(offer.offered(alloc)?)?;
    }
    Ok(list)
}
