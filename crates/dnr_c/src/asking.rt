// The calls of an open seat. Each takes the seat and gives it back.
ghost use Rattle.std.specs.Prelude.{◌≡◌, ◌≢◌, ◌≤◌, ◌↔◌, Some, None, take, IfOk, IfErr, length as length_of};
ghost use Rattle.engine.specs.Asking.{Answers, Stays, TakesMore};
ghost use Rattle.dnr_c.specs.Codes as codes;
ghost use Rattle.dnr_c.specs.Ends.{Answered, IsShare, Keeps, LacksRoom};

use crate::code::{DONE, IS_CLOSED, NO_MEMORY, NO_ROOM, Told, alone};
use crate::handle::Handle;
use crate::opening::seated;
use crate::seat::Seat;
use dnr_base::NoMemory;
use engine::{AskRefusal, Engine};
use std::alloc::Global;

// Asks the seat's engine a line.
pub(crate) fn asked(
    seat: Seat,
    alloc: Global,
    number: u32,
    line: &[u8],
    out: &mut [u8],
) -> (Seat, Told)
    ensures answered { result.1.code ≡ codes.done → Answered seat.handle.engine number line.now
        (take result.1.length out.new) result.0.handle.engine }
    ensures within { result.1.code ≡ codes.done → result.1.length ≤ length_of out.new }
    ensures stays { result.1.code ≢ codes.done → Keeps seat.handle.engine result.0.handle.engine }
    ensures untouched { result.1.code ≢ codes.done → out.new ≡ out.old }
    ensures room { result.1.code ≡ codes.no_room → LacksRoom seat.handle.engine number line.now result.1.length
        (length_of out.old) }
    ensures closed { (result.1.code ≡ codes.is_closed) ↔ (seat.handle.engine ≡ None) }
{
    if !seat.is_open {
        return (seat, alone(IS_CLOSED));
    }
    let mut engine = seat.handle.into_box();
    let answer = ask(&mut engine, alloc, number, line, out);
    let handle = Handle::of(engine);
    (
        Seat {
            handle,
            is_open: true,
        },
        answer,
    )
}

fn ask(engine: &mut Engine, alloc: Global, number: u32, line: &[u8], out: &mut [u8]) -> Told
    ensures answered { result.code ≡ codes.done → Answers engine.old number line.now
        (take result.length out.new) engine.new }
    ensures within { result.code ≡ codes.done → result.length ≤ length_of out.new }
    ensures stays { result.code ≢ codes.done → Stays engine.old engine.new }
    ensures untouched { result.code ≢ codes.done → out.new ≡ out.old }
    ensures room { result.code ≡ codes.no_room → TakesMore engine.old number line.now result.length
        (length_of out.old) }
    ensures open { result.code ≢ codes.is_closed }
{
    match engine.ask(alloc, number, line, out) {
        Ok(length) => Told { code: DONE, length },
        Err(AskRefusal::Room(length)) => Told {
            code: NO_ROOM,
            length,
        },
        Err(AskRefusal::NoMemory) => alone(NO_MEMORY),
    }
}

// Shares the seat's engine.
pub(crate) fn shared(seat: Seat, alloc: Global) -> (Seat, Result<Seat, u32>)
    ensures same { result.0.handle.engine ≡ seat.handle.engine }
    ensures share { IfOk result.1 (λ other. IsShare seat.handle.engine other.handle.engine) }
    ensures failed { IfErr result.1 (λ number. (number ≢ codes.done) × (number ≢ codes.is_opened)) }
    ensures closed { IfErr result.1 (λ number. (number ≡ codes.is_closed) ↔ (seat.handle.engine ≡ None)) }
{
    if !seat.is_open {
        return (seat, Err(IS_CLOSED));
    }
    let engine = seat.handle.into_box();
    let other = share(&engine, alloc);
    let handle = Handle::of(engine);
    (
        Seat {
            handle,
            is_open: true,
        },
        other,
    )
}

fn share(engine: &Engine, alloc: Global) -> Result<Seat, u32>
    ensures share { IfOk result (λ other. IsShare (Some engine.now) other.handle.engine) }
    ensures failed { IfErr result (λ number. number ≡ codes.no_memory) }
{
    match engine.share(alloc) {
        Ok(other) => match seated(alloc, other) {
            Ok(seat) => Ok(seat),
            Err(NoMemory) => Err(NO_MEMORY),
        },
        Err(NoMemory) => Err(NO_MEMORY),
    }
}

// Ends the seat's engine.
pub(crate) fn ended(seat: Seat) -> u32
    ensures done { (result ≡ codes.done) ↔ (seat.handle.engine ≢ None) }
    ensures otherwise { result ≢ codes.done → result ≡ codes.is_closed }
{
    if !seat.is_open {
        return IS_CLOSED;
    }
    drop(seat.handle.into_box());
    DONE
}
