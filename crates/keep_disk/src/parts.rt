ghost use Rattle.std.specs.Prelude.{◌≡◌, ◌+◌, ◌≤◌, length, slice_range, IfOk};
ghost use Rattle.keep_disk.specs.Images.{written};

use std::alloc::{AllocError, Global};

// A copy of a file with these bytes at a place.
pub fn overwritten(
    alloc: Global,
    file: &[u8],
    at: usize,
    bytes: &[u8],
) -> Result<Vec<u8>, AllocError>
    requires { at ≤ length file.now }
    ensures { IfOk result (λ next. next.items ≡ written at bytes.now file.now) }
{
    let mut next = file[..at].to_vec(alloc)?;
    next.extend_from_slice(bytes)?;
    if bytes.len() < file.len() - at {
        next.extend_from_slice(&file[at + bytes.len()..])?;
    }
    Ok(next)
}

// Fills `to` with the bytes at a place.
pub fn copy_part(from: &[u8], at: usize, to: &mut [u8])
    requires { at + length to.old ≤ length from.now }
    ensures { to.new ≡ slice_range from.now at (at + length to.old) }
{
    to.copy_from_slice(&from[at..at + to.len()]);
}
