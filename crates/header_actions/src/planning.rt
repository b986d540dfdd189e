ghost use Rattle.std.specs.Prelude.{◌≡◌, IfOk};
ghost use Rattle.dnr_spec.specs.Headers as spec;

use crate::standing::Standing;
use dnr_base::{NoMemory, Offered};
use std::alloc::Global;

/// The places of the offers that take effect, in their order. An offer takes effect where no earlier
/// effective one on its header forbids it (behind an `append` only an `append` may follow; behind a `set`
/// only an `append` of the same extension; behind a `remove` nothing), and where fewer than 128 of its
/// direction took effect before.
///
/// `NoMemory`: no memory is left for the answer, or for what is kept of each header meanwhile.
pub fn plan(alloc: Global, offers: &[Offered]) -> Result<Vec<usize>, NoMemory>
    ensures { IfOk result (λ places. places.items ≡ spec.effective offers.now) }
{
    let mut standing = Standing::new(alloc);
    let mut places = Vec::new(alloc);
    for (place, offer) in offers.iter().enumerate() {
        if standing.consider(offer)? {
            places.push(place)?;
        }
    }
    Ok(places)
}
