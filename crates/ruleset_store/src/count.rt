ghost use Rattle.std.specs.Prelude.{◌≡◌, ◌+◌, IfOk};

use dnr_base::NoMemory;

// The sum. That it fits is not known of the lengths of several lists, though no memory holds so many rules: past the
// type's end memory is said to have run out, rather than a count that wrapped to be within a limit.
pub(crate) fn sum(a: usize, b: usize) -> Result<usize, NoMemory>
    ensures { IfOk result (λ sum. sum ≡ a + b) }
{
    a.checked_add(b).ok_or(NoMemory)
}
