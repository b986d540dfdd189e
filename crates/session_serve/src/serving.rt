//! A script, served from its first line to its last.
ghost use Rattle.std.specs.Prelude.{◌≡◌, ◌<◌, ◌∷◌, length, map, is_some, IfSome};
ghost use Rattle.dnr_base.specs.Faults.{HasCauseOf};
ghost use Rattle.session_laws.specs.Turns.{NoneFell, counts_between};
ghost use Rattle.session_serve.specs.Round.{setting_with};
ghost use Rattle.session_serve.specs.Serving.{EndsServing};

use crate::answers::Session;
use crate::round::Round;
use crate::stop::ServeStop;
use dnr_io::{Lines, Sink, Source};
use regex_host::RegexHost;
use std::alloc::Global;

/// Answers the lines that the source has left, in turn, and writes the answers of each round when it has ended, before
/// more is read. The k-th request of a round is decided with the finder k modulo their number; the checker checks the
/// patterns of updates.
///
/// # Errors
///
/// - `ReadFault`, `TooLong`: the source failed, or a line is too long, or there are too many. The rounds before that
///   are written.
/// - `WriteFault`: the sink failed, and has taken some first bytes of what may be written.
/// - `NoMemory`: memory ran out. Some first rounds are written.
pub fn serve_lines<S: Source, O: Sink, H: RegexHost>(
    alloc: Global,
    session: Session,
    source: &mut S,
    out: &mut O,
    checker: &mut H,
    finders: &mut [H],
) -> Result<(), ServeStop>
    requires { 0 < length finders.old }
    ensures served { IfSome (S.left source.old) (λ script. EndsServing (O.taken out.old) (O.taken out.new)
        (counts_between (H.faults checker.old ∷ map H.faults finders.old) (H.faults checker.new ∷ map H.faults finders.new))
        (setting_with session (length finders.old)) session.state script (S.left source.new) result) }
    ensures later { NoneFell (H.faults checker.old ∷ map H.faults finders.old)
        (H.faults checker.new ∷ map H.faults finders.new) }
    ensures told { is_some (S.left source.new) ≡ is_some (S.left source.old) }
    ensures starts { S.starts source.new ≡ S.starts source.old }
    ensures read_fault { HasCauseOf ServeStop.ReadFault (S.faults source.old) (S.faults source.new) result }
    ensures write_fault { HasCauseOf ServeStop.WriteFault (O.faults out.old) (O.faults out.new) result }
{
    let mut session = session;
    let mut lines = Lines::new(alloc)?;
    let mut line = Vec::new(alloc);
    let mut round = Round::new(alloc);
    let mut number = 0;
    while lines.next(source, &mut line)? {
        number += 1;
        round.serve_line(alloc, &mut session, number, &line, out, checker, finders)?;
    }
    round.write(out)?;
    Ok(())
}
