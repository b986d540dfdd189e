// The last member of a name: of a repeated key the last value counts.
ghost use Rattle.std.specs.Prelude.{◌≡◌, ◌+◌, ◌-◌, ◌<◌, ◌≤◌, length, None, Err, IfOk, OnOk, OnErr};
ghost use Rattle.std.specs.Str.{bytes_eq};
ghost use Rattle.json_fields.specs.Last.{HasTimes, HasNone, HasNoMembers, IsLast, Leaves, members_in, one_if};

use crate::passed::pass_value;
use crate::tree::Fault;
use json::{Invalid, Reader};

/// How many members of an object have the name. The reader stands behind the object's brace, and then behind the one
/// that closes it.
///
/// # Errors
///
/// - `BadJson`: the tokens are no members.
/// - `NoMemory`: there are more than memory could hold.
pub fn count_members(reader: &mut Reader<'_>, depth: usize, name: &str) -> Result<usize, Fault>
    ensures ok { IfOk result (HasTimes depth name.now reader.old) }
    ensures bad { result ≡ Err Fault.BadJson → members_in depth reader.old ≡ None }
{
    let mut count = 0;
    'members: while let Some(key) = reader.next_key()? {
        pass_value(reader, depth)?;
        count = more_if(count, is_same(key, name))?;
    }
    Ok(count)
}

fn is_same(key: &str, name: &str) -> bool
    ensures { result ≡ bytes_eq key.now name.now }
{
    key == name
}

fn more_if(count: usize, more: bool) -> Result<usize, Fault>
    ensures more { IfOk result (λ n. n ≡ count + one_if more) }
    ensures memory { result ≡ Err Fault.BadJson → ⊥ }
{
    if more {
        count.checked_add(1).ok_or(Fault::NoMemory)
    } else {
        Ok(count)
    }
}

/// Goes to the value of the last member of the name, of which there are so many.
pub fn seek_last(
    reader: &mut Reader<'_>,
    depth: usize,
    name: &str,
    times: usize,
) -> Result<(), Invalid>
    requires some { 0 < times }
    requires times { HasTimes depth name.now reader.old times }
    ensures ok { OnOk result (IsLast depth name.now reader.old reader.new) }
    ensures shorter { OnOk result (length reader.new < length reader.old) }
    ensures bad { OnErr result (members_in depth reader.old ≡ None) }
{
    let mut left = times;
    'members: while let Some(key) = reader.next_key()? {
        left = less_if(left, is_same(key, name));
        if left == 0 {
            return Ok(());
        }
        pass_value(reader, depth)?;
    }
    Err(Invalid)
}

fn less_if(count: usize, less: bool) -> usize
    requires { 0 < count }
    ensures { result ≡ count - one_if less }
{
    if less { count - 1 } else { count }
}

/// Passes over the members up to the brace that closes their object. None of them has the name.
pub fn pass_others(reader: &mut Reader<'_>, depth: usize, name: &str) -> Result<(), Invalid>
    requires { HasNone depth name.now reader.old }
    ensures ok { OnOk result (Leaves depth name.now reader.old reader.new) }
    ensures shorter { OnOk result (length reader.new < length reader.old) }
    ensures bad { OnErr result (HasNoMembers depth reader.old) }
{
    'members: while let Some(_) = reader.next_key()? {
        pass_value(reader, depth)?;
    }
    Ok(())
}
