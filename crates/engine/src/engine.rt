ghost use Rattle.std.specs.Prelude.{◌≡◌, ◌≤◌, [], length, take, IfOk, IfErr, OnOk, OnErr, IfSome, string_bytes};
ghost use Rattle.std.specs.Arc.{arc_value};
ghost use Rattle.request_given.specs.Reads.{request_of};
ghost use Rattle.engine.specs.Asking.{Answers, AskFails, Stays, left_by};
ghost use Rattle.engine.specs.Decided.{IsDecided, IsUndecided};
ghost use Rattle.engine.specs.Held.{no_faults};

use crate::answering::answer;
use crate::deciding::decide;
use crate::{AskRefusal, Undecided, put_front};
use dnr_base::NoMemory;
use generation::{Generation, Verdict};
use regex_host::{PackHost, RegexHost};
use request_given::GivenRequest;
use script_read::Memo;
use std::alloc::Global;
use std::marker::Model;
use std::sync::Arc;

// How many built patterns the host keeps that finds matches.
const ROOM: usize = 1_024;

/// What is installed, after a number of updates, with pattern hosts of its own. A clause sees the suffix rules, the state of
/// `rule_spec`, and how often each host failed: the one that reads rules, and the one that finds matches.
#[derive(Drop)]
pub struct Engine {
    generation: Arc<Generation>,
    memo: Memo,
    checker: PackHost,
    finder: PackHost,
}

impl Model for Engine {
    ghost use Rattle.std.specs.Prelude.{[], ◌∷◌};
    ghost use Rattle.std.specs.Arc.{arc_value};
    ghost use Rattle.generation.specs.Basis.{Basis};
    ghost use Rattle.engine.specs.Held.{Held};

    ghost Value = { Held };

    ghost view = { λ e. record {
      suffixes = (arc_value {X = Basis} e.generation).suffixes;
      state = (arc_value {X = Basis} e.generation).state;
      faults = ⟦<PackHost as RegexHost>⟧.faults e.checker ∷ ⟦<PackHost as RegexHost>⟧.faults e.finder ∷ [];
    } };
}

impl Engine {
    /// An engine that goes on from this generation. Its hosts have not failed yet.
    ///
    /// `NoMemory`: no memory is left.
    pub fn new(alloc: Global, generation: Generation) -> Result<Engine, NoMemory>
        ensures { IfOk result (λ engine. engine ≡ record {
          suffixes = generation.suffixes;
          state = generation.state;
          faults = no_faults;
        }) }
    {
        match Arc::new(alloc, generation) {
            Ok(generation) => Engine::over(alloc, generation),
            Err(_) => Err(NoMemory),
        }
    }

    // The same of a generation that others may share.
    fn over(alloc: Global, generation: Arc<Generation>) -> Result<Engine, NoMemory>
        ensures { IfOk result (λ engine. engine ≡ record {
          suffixes = (arc_value generation).suffixes;
          state = (arc_value generation).state;
          faults = no_faults;
        }) }
    {
        let checker = PackHost::new(alloc)?;
        let finder = PackHost::with_room(alloc, ROOM)?;
        Ok(Engine {
            generation,
            memo: Memo::new(alloc),
            checker,
            finder,
        })
    }

    /// Answers a line of a script, which has this number, as a session does that takes updates: the answer, with its LF, is
    /// put at the front of `out`, and its length is given. A blank line is answered by nothing. An update that is accepted
    /// is applied, whole; any other line leaves the state.
    ///
    /// # Errors
    ///
    /// The state stays as it was, and nothing is put into `out`.
    ///
    /// - `Room`: the answer takes so many bytes. With as much room the line may be asked again.
    /// - `NoMemory`: memory ran out.
    pub fn ask(
        &mut self,
        alloc: Global,
        number: u32,
        line: &[u8],
        out: &mut [u8],
    ) -> Result<usize, AskRefusal>
        ensures answered { IfOk result (λ count. Answers self.old number line.now (take count out.new) self.new) }
        ensures within { IfOk result (λ count. count ≤ length out.new) }
        ensures refused { IfErr result (AskFails self.old number line.now (length out.old)) }
        ensures stays { OnErr result (Stays self.old self.new) }
        ensures untouched { OnErr result (out.new ≡ out.old) }
        ensures room { length out.new ≡ length out.old }
    {
        let mut text = String::new(alloc);
        let next = self.hear(alloc, number, line, &mut text)?;
        let count = text.len();
        if out.len() < count {
            return Err(AskRefusal::Room(count));
        }
        self.go_on(alloc, next)?;
        Ok(put_front(text.as_bytes(), out))
    }

    /// What becomes of the request of these parts, which has this number: the verdict of the scan of all rules in force. The
    /// state stays.
    ///
    /// # Errors
    ///
    /// - `Bad`: this part is the first at fault.
    /// - `HostFault`: the pattern host failed at this rule, which is in force, and its count of faults rose.
    /// - `NoMemory`: memory ran out.
    pub fn decide(
        &mut self,
        alloc: Global,
        number: u32,
        given: &GivenRequest<'_>,
    ) -> Result<Verdict, Undecided>
        ensures decided { IfOk result (IsDecided self.old (request_of number given.now)) }
        ensures undecided { IfErr result (IsUndecided self.old (request_of number given.now) self.new.faults) }
        ensures stays { Stays self.old self.new }
    {
        decide(alloc, &self.generation, number, given, &mut self.finder)
    }

    /// How many updates were accepted.
    pub fn number(&self) -> u32
        ensures { result ≡ self.now.state.count }
    {
        self.generation.number()
    }

    // Puts what the line says into an empty text, and gives the generation that it leaves, if that is another.
    fn hear(
        &mut self,
        alloc: Global,
        number: u32,
        line: &[u8],
        into: &mut String,
    ) -> Result<Option<Generation>, NoMemory>
        requires { string_bytes into.old ≡ [] }
        ensures heard { IfOk result (λ next. Answers self.old number line.now (string_bytes into.new)
            (left_by self.new next)) }
        ensures suffixes { IfOk result (λ next. IfSome next (λ basis. basis.suffixes ≡ self.new.suffixes)) }
        ensures stays { Stays self.old self.new }
    {
        answer(
            alloc,
            &self.generation,
            number,
            line,
            &mut self.memo,
            &mut self.checker,
            &mut self.finder,
            into,
        )
    }

    // Goes on from the next generation, if there is one.
    fn go_on(&mut self, alloc: Global, next: Option<Generation>) -> Result<(), NoMemory>
        requires { IfSome next (λ basis. basis.suffixes ≡ self.old.suffixes) }
        ensures done { OnOk result (self.new ≡ left_by self.old next) }
        ensures same { OnErr result (self.new ≡ self.old) }
    {
        let Some(next) = next else {
            return Ok(());
        };
        match Arc::new(alloc, next) {
            Ok(next) => {
                self.generation = next;
                Ok(())
            }
            Err(_) => Err(NoMemory),
        }
    }

    /// A second engine, which goes on from the state of this one, for another thread. It shares what is installed. What
    /// either is asked later says nothing of the other.
    ///
    /// `NoMemory`: no memory is left.
    pub fn share(&self, alloc: Global) -> Result<Engine, NoMemory>
        ensures { IfOk result (λ other. other ≡ record {
          suffixes = self.now.suffixes;
          state = self.now.state;
          faults = no_faults;
        }) }
    {
        match Arc::try_clone(&self.generation) {
            Ok(generation) => Engine::over(alloc, generation),
            Err(_) => Err(NoMemory),
        }
    }
}
