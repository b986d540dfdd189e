ghost use Rattle.std.specs.Prelude.{◌≡◌, ◌++◌, map, filter, slice_get, IfOk, [], ◌∷◌};
ghost use Rattle.std.specs.Option.{option_copied};
ghost use Rattle.dnr_spec.specs.Headers.{is_same_direction};
ghost use Rattle.generation.specs.Choice as choice;
ghost use Rattle.rule_spec.specs.Scan as spec;

use crate::kept::Kept;
use crate::offer::Offer;
use crate::offers::{offered, offers};
use dnr_base::{Direction, Header, Items, NoMemory};
use dnr_verdict::NamedOp;
use header_actions::{HeaderOp, apply, plan};
use std::alloc::Global;

fn is_same(direction: Direction, other: Direction) -> bool
    ensures { result ≡ is_same_direction direction other }
{
    match direction {
        Direction::Request => matches!(other, Direction::Request),
        Direction::Response => matches!(other, Direction::Response),
    }
}

fn offer_at<'k, 'a>(offers: &'k [Offer<'a>], place: usize) -> Option<&'k Offer<'a>>
    ensures { option_copied result ≡ slice_get offers.now place }
{
    offers.get(place)
}

// Adds the offer, if there is one and it is of this direction.
fn add_one(
    alloc: Global,
    mut ops: Vec<NamedOp>,
    direction: Direction,
    offer: Option<&Offer<'_>>,
) -> Result<Vec<NamedOp>, NoMemory>
    ensures { IfOk result (λ new. new.items ≡ ops.items ++ choice.ops_of direction (option_copied offer.entry)) }
{
    let Some(offer) = offer else {
        return Ok(ops);
    };
    if !is_same(direction, offer.direction) {
        return Ok(ops);
    }
    ops.push(offer.named(alloc)?)?;
    Ok(ops)
}

// Adds the offer at a place, if there is one and it is of this direction.
fn add_at(
    alloc: Global,
    ops: Vec<NamedOp>,
    direction: Direction,
    offers: &[Offer<'_>],
    place: usize,
) -> Result<Vec<NamedOp>, NoMemory>
    ensures { IfOk result (λ new. new.items ≡ ops.items ++ choice.ops_at direction offers.now (place ∷ [])) }
{
    add_one(alloc, ops, direction, offer_at(offers, place))
}

// Adds those of the offers at these places that are of this direction.
fn add_of(
    alloc: Global,
    ops: Vec<NamedOp>,
    direction: Direction,
    offers: &[Offer<'_>],
    places: &[usize],
) -> Result<Vec<NamedOp>, NoMemory>
    ensures { IfOk result (λ new. new.items ≡ ops.items ++ choice.ops_at direction offers.now places.now) }
{
    let mut ops = ops;
    for place in places {
        ops = add_at(alloc, ops, direction, offers, *place)?;
    }
    Ok(ops)
}

// The header changes that take effect, those of the request first.
pub(crate) fn operations(alloc: Global, kepts: &[Kept<'_>]) -> Result<Vec<NamedOp>, NoMemory>
    ensures { IfOk result (λ ops. ops.items ≡ choice.ops_in kepts.now) }
{
    let offers = offers(alloc, kepts)?;
    let places = plan(alloc, offered(alloc, offers.as_slice())?.as_slice())?;
    let ops = Vec::new(alloc);
    let ops = add_of(
        alloc,
        ops,
        Direction::Request,
        offers.as_slice(),
        places.as_slice(),
    )?;
    add_of(
        alloc,
        ops,
        Direction::Response,
        offers.as_slice(),
        places.as_slice(),
    )
}

// Adds a change, if it is of this direction.
#[tactic(auto, using(crate::proofs::Taken::on_is))]
fn add_op(
    alloc: Global,
    mut list: Vec<HeaderOp>,
    direction: Direction,
    op: &NamedOp,
) -> Result<Vec<HeaderOp>, NoMemory>
    ensures { IfOk result (λ new. new.items ≡ list.items ++ choice.op_on direction op.now) }
{
    if is_same(direction, op.direction) {
        list.push(op.op.copy(alloc)?)?;
    }
    Ok(list)
}

// The changes of a direction, without their rules.
fn ops_on(alloc: Global, direction: Direction, ops: &[NamedOp]) -> Result<Vec<HeaderOp>, NoMemory>
    ensures { IfOk result (λ list. list.items ≡ map (λ op. op.op) (filter (spec.is_on direction) ops.now)) }
{
    let mut list = Vec::new(alloc);
    for op in ops {
        list = add_op(alloc, list, direction, op)?;
    }
    Ok(list)
}

// A list of headers after the changes of its direction, if there is such a list.
pub(crate) fn list_after(
    alloc: Global,
    direction: Direction,
    ops: &[NamedOp],
    headers: &Option<Items<Header>>,
) -> Result<Option<Items<Header>>, NoMemory>
    ensures { IfOk result (λ list. list ≡ spec.list_after direction ops.now headers.now) }
{
    match headers {
        Some(headers) => {
            let ops = ops_on(alloc, direction, ops)?;
            Ok(Some(Items::build(apply(alloc, headers.as_slice(), ops.as_slice())?)))
        }
        None => Ok(None),
    }
}
