ghost use Rattle.std.specs.Prelude.{◌≡◌, ◌+◌, ◌<◌, ◌≤◌, true, false, None, length, map, is_some};
ghost use Rattle.std.specs.Prelude.{IfOk, OnOk, IfSome, IsErrOf, IsFalse};
ghost use Rattle.std.specs.Io.KnownBytes.{IsAtEnd};
ghost use Rattle.dnr_spec.specs.Lines.{lines_of, is_within_limits, max_lines};
ghost use Rattle.dnr_base.specs.Faults.{HasCauseOf};
ghost use Rattle.dnr_io.specs.Lines.{ahead, GivesLine, IsBeyond};

use crate::{LineRefusal, Lines, Source};
use std::alloc::Global;

/// Reads all lines that a source has left, each without its LF and a CR before that.
pub fn read_lines<S: Source>(alloc: Global, source: &mut S) -> Result<Vec<Vec<u8>>, LineRefusal>
    ensures lines { IfOk result (λ lines. IfSome (S.left source.old) (λ script.
        map (λ line. line.items) lines.items ≡ lines_of script)) }
    ensures within { OnOk result (IfSome (S.left source.old) (λ script. is_within_limits script ≡ true)) }
    ensures count { IfOk result (λ lines. length lines.items ≤ max_lines) }
    ensures end { OnOk result (IsAtEnd (S.left source.new)) }
    ensures too_long { IsErrOf result LineRefusal.LineTooLong →
        IfSome (S.left source.old) (λ script. is_within_limits script ≡ false) }

    ensures told { is_some (S.left source.new) ≡ is_some (S.left source.old) }
    ensures files { S.files source.new ≡ S.files source.old }
    ensures starts { S.starts source.new ≡ S.starts source.old }
    ensures cause { HasCauseOf LineRefusal.ReadFault (S.faults source.old) (S.faults source.new) result }
{
    let mut lines = Lines::new(alloc)?;
    let mut all = Vec::new(alloc);
    while let Some(line) = next_line(alloc, &mut lines, source)? {
        all.push(line)?;
    }
    Ok(all)
}

// The next line, in a vector of its own.
fn next_line<S: Source>(
    alloc: Global,
    lines: &mut Lines,
    source: &mut S,
) -> Result<Option<Vec<u8>>, LineRefusal>
    requires ended { IsFalse lines.old.live → IsAtEnd (ahead lines.old (S.left source.old)) }
    ensures line { IfOk result (λ line. IfSome line (λ line.
        GivesLine (ahead lines.old (S.left source.old)) (ahead lines.new (S.left source.new)) line.items)) }
    ensures counted { IfOk result (λ line. IfSome line (λ line.
        (lines.old.count < max_lines) × (lines.new.count ≡ lines.old.count + 1))) }
    ensures last { IfOk result (λ line. IfSome line (λ line.
        IsFalse lines.new.live → IsAtEnd (ahead lines.new (S.left source.new)))) }
    ensures end { result ≡ Ok None →
        IsAtEnd (ahead lines.old (S.left source.old)) × IsAtEnd (S.left source.new) }
    ensures too_long { IsErrOf result LineRefusal.LineTooLong →
        IfSome (ahead lines.old (S.left source.old)) (IsBeyond lines.old.count) }
    ensures told { is_some (S.left source.new) ≡ is_some (S.left source.old) }
    ensures files { S.files source.new ≡ S.files source.old }
    ensures starts { S.starts source.new ≡ S.starts source.old }
    ensures cause { HasCauseOf LineRefusal.ReadFault (S.faults source.old) (S.faults source.new) result }
{
    let mut line = Vec::new(alloc);
    if !lines.next(source, &mut line)? {
        return Ok(None);
    }
    Ok(Some(line))
}
