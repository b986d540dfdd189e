// The opening of a seat.
ghost use Rattle.std.specs.Prelude.{◌≡◌, ◌≢◌, Some, IfOk, IfErr};
ghost use Rattle.session_spec.specs.Words.{task_of};
ghost use Rattle.engine.specs.Opening.{EndsFor, IsOpenedBy};
ghost use Rattle.dnr_c.specs.Codes as codes;
ghost use Rattle.dnr_c.specs.Ends.{Opened};
ghost use Rattle.dnr_c.specs.Faults.{Fails, IsToldAs};
ghost use Rattle.dnr_c.specs.Given as from_c;

use crate::code::{NO_FILE, NO_MEMORY, NO_TEXT, REFUSED, TOO_LONG, Told, USAGE, alone};
use crate::given::{GivenFile, GivenText, are_texts, files_of, words_of};
use crate::handle::Handle;
use crate::seat::Seat;
use dnr_base::NoMemory;
use engine::{Engine, OpenRefusal, put_front};
use std::alloc::Global;

/// Why a seat is not opened.
#[derive(Debug, Drop)]
pub(crate) enum Fault {
    /// A word or a name is no text.
    NoText,
    /// The engine is not opened.
    Engine(OpenRefusal),
}

// A seat with this engine.
pub(crate) fn seated(alloc: Global, engine: Engine) -> Result<Seat, NoMemory>
    ensures { IfOk result (λ seat. seat.handle.engine ≡ Some engine) }
{
    match Box::new(alloc, engine) {
        Ok(engine) => Ok(Seat {
            handle: Handle::of(engine),
            is_open: true,
        }),
        Err(_) => Err(NoMemory),
    }
}

// A seat with an engine over these files, as the words say.
pub(crate) fn open_seat(
    alloc: Global,
    words: &[GivenText<'_>],
    files: &[GivenFile<'_>],
) -> Result<Seat, Fault>
    ensures opened { IfOk result (λ seat. Opened (task_of (from_c.words_of words.now))
        (from_c.files_of files.now) seat.handle.engine) }
    ensures failed { IfErr result (Fails words.now files.now) }
{
    if !are_texts(words, files) {
        return Err(Fault::NoText);
    }
    match engine_of(alloc, words, files) {
        Ok(engine) => match seated(alloc, engine) {
            Ok(seat) => Ok(seat),
            Err(NoMemory) => Err(Fault::Engine(OpenRefusal::NoMemory)),
        },
        Err(refusal) => Err(Fault::Engine(refusal)),
    }
}

fn engine_of(
    alloc: Global,
    words: &[GivenText<'_>],
    files: &[GivenFile<'_>],
) -> Result<Engine, OpenRefusal>
    ensures opened { IfOk result (IsOpenedBy (task_of (from_c.words_of words.now)) (from_c.files_of files.now)) }
    ensures refused { IfErr result (EndsFor (task_of (from_c.words_of words.now)) (from_c.files_of files.now)) }
{
    let Ok(said) = words_of(alloc, words) else {
        return Err(OpenRefusal::NoMemory);
    };
    let Ok(held) = files_of(alloc, files) else {
        return Err(OpenRefusal::NoMemory);
    };
    Engine::open(alloc, &said, held)
}

// Tells why a seat is not opened: by a code, and by a line where there is one and room for it.
pub(crate) fn tell(fault: &Fault, out: &mut [u8]) -> Told
    ensures told { IsToldAs fault.now result out.new }
    ensures failed { (result.code ≢ codes.done) × (result.code ≢ codes.is_opened) }
{
    match fault {
        Fault::NoText => alone(NO_TEXT),
        Fault::Engine(refusal) => tell_refusal(refusal, out),
    }
}

fn tell_refusal(refusal: &OpenRefusal, out: &mut [u8]) -> Told
    ensures told { IsToldAs (Fault.Engine refusal.now) result out.new }
    ensures failed { (result.code ≢ codes.done) × (result.code ≢ codes.is_opened) }
{
    match refusal {
        OpenRefusal::Usage => alone(USAGE),
        OpenRefusal::Refused(line) => Told {
            code: REFUSED,
            length: put_front(line.as_bytes(), out),
        },
        OpenRefusal::NoFile => alone(NO_FILE),
        OpenRefusal::TooLong => alone(TOO_LONG),
        OpenRefusal::NoMemory => alone(NO_MEMORY),
    }
}
