ghost use Rattle.std.specs.Prelude.{◌≡◌, IfOk, filter};
ghost use Rattle.dnr_spec.specs.Transform as spec;
ghost use Rattle.redirect_transform.specs.Piece.{texts_of};

use crate::counts::counted;
use crate::piece::{Piece, split_pieces};
use dnr_base::{NoMemory, Text};
use std::alloc::Global;

/// The pieces of a query whose keys are not removed, in their order.
///
/// `NoMemory`: no memory is left for the list, or for a key.
pub fn kept_pieces<'a>(
    alloc: Global,
    removed: &[Text],
    query: &'a str,
) -> Result<Vec<Piece<'a>>, NoMemory>
    ensures { IfOk result (λ pieces.
        texts_of pieces.items ≡ filter (spec.is_kept removed.now) (spec.pieces_of query.now)) }
{
    let removed = counted(alloc, removed)?;
    let pieces = split_pieces(alloc, query)?;
    let mut kept = Vec::new(alloc);
    for text in &pieces {
        if !text.is_empty() {
            let piece = Piece::read(alloc, text)?;
            if removed.count(piece.key.as_str()) == 0 {
                kept.push(piece)?;
            }
        }
    }
    Ok(kept)
}
