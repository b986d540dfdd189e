//! The engine for C: a static library and the header `dnr.h`.
//!
//! Each call is total: none requires anything beyond its types, and a seat that is not in the state that the call is for is
//! told by a code. What C must uphold stands in the header. An engine lives behind a pointer in a seat, which is memory of
//! C's own. Each call takes the seat as it is, has the engine do what it is asked, and puts the seat back.
#![tactic(auto)]

ghost use Rattle.std.specs.Prelude.{◌≡◌, ◌≢◌, ◌<◌, ◌≤◌, ◌↔◌, None, take, length as length_of};
ghost use Rattle.session_spec.specs.Words.{task_of};
ghost use Rattle.dnr_c.specs.Codes as codes;
ghost use Rattle.dnr_c.specs.Decides.{DecidedBy, HostFailed, IsBad, LacksPlace};
ghost use Rattle.dnr_c.specs.Ends.{Answered, IsShare, Keeps, LacksRoom, Opened};
ghost use Rattle.dnr_c.specs.Faults.{IsRefused};
ghost use Rattle.dnr_c.specs.Given as from_c;

mod asking;
mod code;
mod deciding;
mod given;
mod handle;
mod opening;
mod parts;
mod seat;

use asking::{asked, ended, shared};
use code::{DONE, IS_OPENED};
use deciding::decided;
use engine::GivenRequest;
use given::{GivenFile, GivenText};
use opening::{open_seat, tell};
use seat::Seat;
use std::alloc::Global;
use std::marker::Send;
use std::mem::replace;
use verdict_shown::{ShownChange, ShownVerdict};

/// Opens a closed seat over files in memory, as the words say that follow the name of the program `dnr`: those of `serve` or
/// of `match`, whose script is not read. Where a file or an installation is refused, the line that says so is put into
/// `out`, if there is room for it; `length` is its length.
#[unsafe(no_mangle)]
pub extern "C" fn dnr_open(
    alloc: Global,
    words: &[GivenText<'_>],
    files: &[GivenFile<'_>],
    seat: &mut Seat,
    out: &mut [u8],
    length: &mut usize,
) -> u32
    ensures opened { result ≡ codes.done → Opened (task_of (from_c.words_of words.now))
        (from_c.files_of files.now) seat.new.handle.engine }
    ensures same { result ≢ codes.done → seat.new.handle.engine ≡ seat.old.handle.engine }
    ensures is_opened { (result ≡ codes.is_opened) ↔ (seat.old.handle.engine ≢ None) }
    ensures refused { result ≢ codes.done → result ≢ codes.is_opened
        → IsRefused words.now files.now result length.new out.new }
{
    *length = 0;
    if seat.is_open {
        return IS_OPENED;
    }
    match open_seat(alloc, words, files) {
        Ok(new) => {
            *seat = new;
            DONE
        }
        Err(fault) => {
            let told = tell(&fault, out);
            *length = told.length;
            told.code
        }
    }
}

/// Asks the engine of a seat the line of this number of a script, without its LF, and puts the answer at the front of
/// `out`, as `serve` writes it; `length` is its length. Where there is no room for it `length` is what it takes, and
/// nothing has happened.
#[unsafe(no_mangle)]
pub extern "C" fn dnr_ask(
    alloc: Global,
    seat: &mut Seat,
    number: u32,
    line: &[u8],
    out: &mut [u8],
    length: &mut usize,
) -> u32
    ensures answered { result ≡ codes.done → Answered seat.old.handle.engine number line.now
        (take length.new out.new) seat.new.handle.engine }
    ensures within { result ≡ codes.done → length.new ≤ length_of out.new }
    ensures stays { result ≢ codes.done → Keeps seat.old.handle.engine seat.new.handle.engine }
    ensures untouched { result ≢ codes.done → out.new ≡ out.old }
    ensures room { result ≡ codes.no_room → LacksRoom seat.old.handle.engine number line.now length.new
        (length_of out.old) }
    ensures closed { (result ≡ codes.is_closed) ↔ (seat.old.handle.engine ≡ None) }
{
    let taken = replace(seat, Seat::closed(alloc));
    let (left, told) = asked(taken, alloc, number, line, out);
    *seat = left;
    *length = told.length;
    told.code
}

/// Has the engine of a seat decide a request that is given by its parts: the verdict of the scan of all rules in force. Its
/// texts are put at the front of `out`, its header changes at the front of `changes`, and its numbers into `verdict`. Where
/// there is no room for them `verdict` says how much they take. The state stays in any case.
#[unsafe(no_mangle)]
pub extern "C" fn dnr_decide(
    alloc: Global,
    seat: &mut Seat,
    request: &GivenRequest<'_>,
    verdict: &mut ShownVerdict,
    changes: &mut [ShownChange],
    out: &mut [u8],
) -> u32
    ensures decided { result ≡ codes.done → DecidedBy seat.old.handle.engine request.now verdict.new out.new changes.new }
    ensures room { result ≡ codes.no_room → LacksPlace seat.old.handle.engine request.now verdict.new
        (length_of out.old) (length_of changes.old) }
    ensures bad { codes.host_fault < result → IsBad request.now result }
    ensures fault { result ≡ codes.host_fault → HostFailed seat.old.handle.engine seat.new.handle.engine }
    ensures stays { Keeps seat.old.handle.engine seat.new.handle.engine }
    ensures untouched { result ≢ codes.done → out.new ≡ out.old }
    ensures unchanged { result ≢ codes.done → changes.new ≡ changes.old }
    ensures closed { (result ≡ codes.is_closed) ↔ (seat.old.handle.engine ≡ None) }
{
    let taken = replace(seat, Seat::closed(alloc));
    let (left, judged) = decided(taken, alloc, request, changes, out);
    *seat = left;
    *verdict = judged.verdict;
    judged.code
}

/// Opens a closed seat with a second engine, which goes on from the state of the first, for another thread. What either is
/// asked later says nothing of the other.
#[unsafe(no_mangle)]
pub extern "C" fn dnr_share(alloc: Global, seat: &mut Seat, other: &mut Seat) -> u32
    ensures same { seat.new.handle.engine ≡ seat.old.handle.engine }
    ensures share { result ≡ codes.done → IsShare seat.old.handle.engine other.new.handle.engine }
    ensures unshared { result ≢ codes.done → other.new.handle.engine ≡ other.old.handle.engine }
    ensures is_opened { (result ≡ codes.is_opened) ↔ (other.old.handle.engine ≢ None) }
    ensures closed { result ≡ codes.is_closed → seat.old.handle.engine ≡ None }
{
    if other.is_open {
        return IS_OPENED;
    }
    let taken = replace(seat, Seat::closed(alloc));
    let (left, made) = shared(taken, alloc);
    *seat = left;
    match made {
        Ok(new) => {
            *other = new;
            DONE
        }
        Err(code) => code,
    }
}

/// Ends the engine of a seat, which is closed after it and may be opened again.
#[unsafe(no_mangle)]
pub extern "C" fn dnr_close(alloc: Global, seat: &mut Seat) -> u32
    ensures closed { seat.new.handle.engine ≡ None }
    ensures done { (result ≡ codes.done) ↔ (seat.old.handle.engine ≢ None) }
    ensures otherwise { result ≢ codes.done → result ≡ codes.is_closed }
{
    let taken = replace(seat, Seat::closed(alloc));
    ended(taken)
}

/// Shows that a seat may be given to another thread. It does nothing.
pub fn seats_are_sent(seat: &Seat) {
    is_sent(seat);
}

fn is_sent<T: Send>(_: &T) {}
