// The long frames of a request, whose words are listed before rules are looked for.
ghost use Rattle.std.specs.Prelude.{◌≡◌, Some, IfOk, IfSome};
ghost use Rattle.dnr_base.specs.Request.{frame_part};
ghost use Rattle.generation.specs.LongFrames.{AreLong};

use dnr_base::{NoMemory, Request};
use rule_index::ListedPart;
use std::alloc::Global;

// The words of a frame with a shorter text are cut once for each list that has rules for frames, as
// few lists have.
const LONG: usize = 512;

// Whether a frame has a long text.
fn has_long(request: &Request) -> bool {
    for frame in request.frames.as_slice() {
        if let Some(view) = &frame.view {
            if view.text().len() > LONG {
                return true;
            }
        }
    }
    false
}

// The frame at a place with its words, if its text is long.
fn long_frame<'r>(
    alloc: Global,
    request: &'r Request,
    place: usize,
) -> Result<Option<ListedPart<'r>>, NoMemory>
    ensures { IfOk result (λ long. IfSome long (λ part. frame_part request.now place ≡ Some part)) }
{
    let Some(part) = request.frame_part(place) else {
        return Ok(None);
    };
    if part.view.text().len() <= LONG {
        return Ok(None);
    }
    Ok(Some(ListedPart::new(alloc, part)?))
}

// The long frames of a request, each at its place. There is no list where no frame is long.
pub(crate) fn long_frames<'r>(
    alloc: Global,
    request: &'r Request,
) -> Result<Vec<Option<ListedPart<'r>>>, NoMemory>
    ensures { IfOk result (λ long. AreLong long.items request.now) }
{
    let mut long = Vec::new(alloc);
    if has_long(request) {
        for place in 0..request.frames.as_slice().len() {
            long.push(long_frame(alloc, request, place)?)?;
        }
    }
    Ok(long)
}

// The frame at a place with its words, if it is one of these.
pub(crate) fn long_at<'a, 'r>(
    long: &'a [Option<ListedPart<'r>>],
    request: &Request,
    place: usize,
) -> Option<&'a ListedPart<'r>>
    requires { AreLong long.now request.now }
    ensures { IfSome result (λ part. frame_part request.now place ≡ Some part.now) }
{
    match long.get(place) {
        Some(Some(part)) => Some(part),
        _ => None,
    }
}
