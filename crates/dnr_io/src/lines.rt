ghost use Rattle.std.specs.Prelude.{◌≡◌, ◌+◌, ◌<◌, ◌≤◌, ℕ, List, [], length, is_some, true, Option, IfOk, OnOk, OnErr};
ghost use Rattle.std.specs.Prelude.{IfSome, IsErrOf, IsTrue, IsFalse};
ghost use Rattle.std.specs.Io.KnownBytes.{IsAtEnd, prepend_known};
ghost use Rattle.dnr_spec.specs.Lines.{max_line, max_lines, without_cr};
ghost use Rattle.dnr_base.specs.Faults.{HasCauseOf};
ghost use Rattle.dnr_io.specs.Lines.{ahead, AreEnded, GivesLine, IsBeyond, StartsTooLong, StopsIn, TakesRaw};

use crate::ahead::Ahead;
use crate::{LineRefusal, NoMemory, Source};
use std::alloc::Global;
use std::marker::Model;

/// The most bytes that a line has before its LF.
pub const MAX_LINE: usize = 8_388_608;

/// The most lines.
pub const MAX_LINES: u32 = 4_294_967_295;

/// The lines of a source, one after another.
///
/// A line ends at LF, and what stands after the last LF is a line where it is not empty. What is read
/// ahead is kept, so all calls should be handed one source.
#[derive(Drop)]
pub struct Lines {
    ahead: Ahead,
    count: u32,
    live: bool,
}

impl Model for Lines {
    ghost use Rattle.dnr_io.specs.Lines.{Reading};

    ghost Value = { Reading };

    ghost view = { λ lines. record { pending = lines.ahead; count = lines.count; live = lines.live } };
}

impl Lines {
    /// Before the first line, with room for what is read ahead.
    pub fn new(alloc: Global) -> Result<Lines, NoMemory>
        ensures { IfOk result (λ lines. lines ≡ record { pending = []; count = 0; live = true }) }
    {
        let ahead = Ahead::new(alloc)?;
        Ok(Lines {
            ahead,
            count: 0,
            live: true,
        })
    }

    /// Whether another line may follow: until a refusal, or until the end was told.
    pub fn live(&self) -> bool
        ensures { result ≡ self.now.live }
    {
        self.live
    }

    /// Puts the next line, without its LF and a CR before that, in place of what `line` has. `Ok(false)`
    /// is the end, and leaves `line` empty. So does a refusal, after which no line may be asked for any more. Where the
    /// source fails, all lines that it gave whole were given, and each of them has its LF.
    ///
    /// Once the source has told its end, as it does before a last line without an LF is given, it is not read again.
    pub fn next<S: Source>(
        &mut self,
        source: &mut S,
        line: &mut Vec<u8>,
    ) -> Result<bool, LineRefusal>
        requires ended { IsFalse self.old.live → IsAtEnd (ahead self.old (S.left source.old)) }

        ensures line { IfOk result (λ given. IsTrue given →
            GivesLine (ahead self.old (S.left source.old)) (ahead self.new (S.left source.new)) line.new.items) }
        ensures within { IfOk result (λ given. IsTrue given → length line.new.items ≤ max_line) }
        ensures counted { IfOk result (λ given. IsTrue given →
            (self.old.count < max_lines) × (self.new.count ≡ self.old.count + 1)) }
        ensures refused { OnErr result (line.new.items ≡ []) }
        ensures uncounted { OnErr result (self.new.count ≡ self.old.count)
            × IfOk result (λ given. IsFalse given → self.new.count ≡ self.old.count) }
        ensures end { IfOk result (λ given. IsFalse given →
            IsAtEnd (ahead self.old (S.left source.old)) × IsAtEnd (ahead self.new (S.left source.new))
            × (line.new.items ≡ [])) }
        ensures too_long { IsErrOf result LineRefusal.LineTooLong →
            IfSome (ahead self.old (S.left source.old)) (IsBeyond self.old.count) }
        ensures stopped { IsErrOf result LineRefusal.ReadFault →
            StopsIn (ahead self.old (S.left source.old)) (S.left source.new) }
        ensures going { IsErrOf result LineRefusal.ReadFault → IsTrue self.old.live }
        ensures live { IsTrue self.new.live → IsTrue self.old.live × (result ≡ Ok true) }
        ensures lf { IsTrue self.new.live →
            AreEnded (ahead self.old (S.left source.old)) (ahead self.new (S.left source.new)) }
        ensures last { result ≡ Ok true → IsFalse self.new.live → IsAtEnd (ahead self.new (S.left source.new)) }

        ensures told { is_some (S.left source.new) ≡ is_some (S.left source.old) }
        ensures files { S.files source.new ≡ S.files source.old }
        ensures starts { S.starts source.new ≡ S.starts source.old }
        ensures cause { HasCauseOf LineRefusal.ReadFault (S.faults source.old) (S.faults source.new) result }
    {
        line.clear();
        if !self.live {
            return Ok(false);
        }
        self.live = false;
        if !self.ahead.look(source)? {
            return Ok(false);
        }
        if self.count == MAX_LINES {
            return Err(LineRefusal::LineTooLong);
        }
        match take_raw_line(&mut self.ahead, source, line) {
            Ok(true) => {
                drop_cr(line);
                self.live = true;
            }
            Ok(false) => {}
            Err(refusal) => {
                line.clear();
                return Err(refusal);
            }
        }
        self.count += 1;
        Ok(true)
    }

    /// How many lines were given.
    pub fn count(&self) -> u32
        ensures { result ≡ self.now.count }
    {
        self.count
    }

    /// How many bytes were read and not yet given.
    pub fn ready(&self) -> usize {
        self.ahead.len()
    }

    /// Puts the next line in place of what `line` has, as `next` does, where it stands with its LF among the bytes that were
    /// read and not yet given: no source is asked for more. Where it does not stand there, no line may be asked for, or
    /// `next` would refuse it, also for want of memory, it says so, and all is left to `next`.
    pub fn next_ready(&mut self, line: &mut Vec<u8>) -> bool
        ensures line { IsTrue result → (left : Option (List ℕ)) →
            GivesLine (ahead self.old left) (ahead self.new left) line.new.items }
        ensures lf { IsTrue result → (left : Option (List ℕ)) →
            AreEnded (ahead self.old left) (ahead self.new left) }
        ensures within { IsTrue result → length line.new.items ≤ max_line }
        ensures counted { IsTrue result →
            (self.old.count < max_lines) × (self.new.count ≡ self.old.count + 1) }
        ensures going { IsTrue result → IsTrue self.old.live }
        ensures live { self.new.live ≡ self.old.live }
        ensures same { IsFalse result → self.new ≡ self.old }
    {
        line.clear();
        if !self.live || self.count == MAX_LINES {
            return false;
        }
        if !self.ahead.move_whole(line) {
            return false;
        }
        drop_cr(line);
        self.count += 1;
        true
    }
}

// Takes the next line, of which a byte stands ahead, into an empty vector, and says whether it ended at
// an LF.
fn take_raw_line<S: Source>(
    ahead: &mut Ahead,
    source: &mut S,
    line: &mut Vec<u8>,
) -> Result<bool, LineRefusal>
    requires some { 0 < length ahead.old }
    requires empty { line.old.items ≡ [] }
    ensures raw { IfOk result (λ ended. TakesRaw (prepend_known ahead.old (S.left source.old))
        (prepend_known ahead.new (S.left source.new)) (record { bytes = line.new.items; ended = ended })) }
    ensures last { IfOk result (λ ended. IsFalse ended → IsAtEnd (prepend_known ahead.new (S.left source.new))) }
    ensures within { OnOk result (length line.new.items ≤ max_line) }
    ensures too_long { IsErrOf result LineRefusal.LineTooLong →
        IfSome (prepend_known ahead.old (S.left source.old)) StartsTooLong }
    ensures stopped { IsErrOf result LineRefusal.ReadFault →
        StopsIn (prepend_known ahead.old (S.left source.old)) (S.left source.new) }
    ensures told { is_some (S.left source.new) ≡ is_some (S.left source.old) }
    ensures files { S.files source.new ≡ S.files source.old }
    ensures starts { S.starts source.new ≡ S.starts source.old }
    ensures cause { HasCauseOf LineRefusal.ReadFault (S.faults source.old) (S.faults source.new) result }
{
    while ahead.look(source)? {
        if ahead.move_to(line)? {
            return Ok(true);
        }
    }
    Ok(false)
}

fn drop_cr(line: &mut Vec<u8>)
    ensures { line.new.items ≡ without_cr line.old.items }
{
    if line.last() == Some(&b'\r') {
        line.pop();
    }
}
