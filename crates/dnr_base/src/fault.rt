ghost use Rattle.std.specs.Prelude.{◌≡◌, ◌≤◌};
ghost use Rattle.dnr_base.specs.Faults.{next_count, Rose};

/// A call failed, and the count of faults rose.
#[derive(Clone, Copy, Debug, PartialEq, Eq)]
pub struct Failed;

/// Counts a fault. A count at the greatest `u64` stands still.
pub fn count_fault(faults: &mut u64)
    ensures value { faults.new ≡ next_count faults.old }
    ensures later { faults.old ≤ faults.new }
    ensures counted { Rose faults.old faults.new }
{
    *faults = faults.saturating_add(1);
}
