ghost use Rattle.std.specs.Prelude.{◌≡◌, ◌+◌, ◌<◌, ◌^◌};

use lookup_pool::{Gate, NoGate, RoundWriter, Seat, round};
use std::sync::Wait;
use std::sync::atomic::{AtomicBool, AtomicU64, Ordering};

// A part of a round: its lines that wait, and how many it has served.
#[derive(Drop)]
struct Desk {
    seat: u32,
    waiting: u32,
    served: u32,
}

fn seat_with(seat: u32, waiting: u32) -> Desk
    ensures { result ≡ record { seat = seat; waiting = waiting; served = 0 } }
{
    Desk {
        seat,
        waiting,
        served: 0,
    }
}

impl Desk {
    // Serves what waits.
    fn serve(&mut self)
        requires { self.old.served + self.old.waiting < 2 ^ 32 }
        ensures { self.new ≡ record {
          seat = self.old.seat;
          waiting = 0;
          served = self.old.served + self.old.waiting;
        } }
    {
        self.served += self.waiting;
        self.waiting = 0;
    }
}

impl Seat for Desk {
    ghost use Rattle.std.specs.Prelude.{◌≡◌, ◌+◌, ◌<◌, ◌^◌};

    ghost can_work = { λ s. s.served + s.waiting < 2 ^ 32 };

    ghost worked = { λ s t. t ≡ record { seat = s.seat; waiting = 0; served = s.served + s.waiting } };

    fn is_idle(&self) -> bool {
        self.waiting == 0
    }

    fn work<G: Gate>(&mut self, gate: &G) {
        gate.before(self.seat, self.waiting);
        self.serve();
    }
}

// The writer of a round.
#[derive(Drop)]
struct Office {
    desk: Desk,
}

impl RoundWriter for Office {
    ghost use Rattle.std.specs.Prelude.{◌≡◌, ◌+◌, ◌<◌, ◌^◌};

    ghost can_write = { λ s. s.desk.served + s.desk.waiting < 2 ^ 32 };

    ghost wrote = { λ s t. t.desk
        ≡ record { seat = s.desk.seat; waiting = 0; served = s.desk.served + s.desk.waiting } };

    fn is_idle(&self) -> bool {
        self.desk.waiting == 0
    }

    fn write<R: Wait, G: Gate>(&mut self, _rt: &R, gate: &G) {
        self.desk.serve();
        gate.after_update(self.desk.served);
    }
}

#[test]
fn each_part_does_its_work_once(rt: HostRuntime) {
    // The lines of the writer and of three seats.
    let rows = [
        (5, [1, 2, 3]),
        (5, [0, 2, 0]),
        (5, [0, 0, 0]),
        (0, [1, 0, 3]),
        (0, [0, 0, 3]),
    ];
    for (updates, [first, second, third]) in rows {
        let mut writer = Office {
            desk: seat_with(9, updates),
        };
        let mut seats = [
            seat_with(0, first),
            seat_with(1, second),
            seat_with(2, third),
        ];
        round(&rt, &mut writer, &mut seats, &NoGate);
        assert_eq!(rt; (writer.desk.waiting, writer.desk.served), (0, updates));
        for (seat, lines) in seats.iter().zip([first, second, third]) {
            assert_eq!(rt; (seat.waiting, seat.served), (0, lines), "at {}", seat.seat);
        }
    }
}

// Where each part of a round waits for the others.
#[derive(Drop)]
struct Meeting {
    parts: u64,
    here: AtomicU64,
    gave_up: AtomicBool,
}

impl Meeting {
    // Gives up at last, so that a round on one thread ends too.
    fn wait(&self) {
        self.here.fetch_add(1, Ordering::SeqCst);
        for _ in 0..1_000_000_000 {
            if self.here.load(Ordering::SeqCst) == self.parts {
                return;
            }
        }
        self.gave_up.store(true, Ordering::SeqCst);
    }
}

impl Gate for Meeting {
    fn before(&self, _seat: u32, _line: u32) {
        self.wait();
    }

    fn after_update(&self, _line: u32) {
        self.wait();
    }
}

#[test]
fn parts_go_on_beside_each_other(rt: HostRuntime) {
    // With a writer that has work, and with an idle one.
    for (updates, parts) in [(1, 4), (0, 3)] {
        let meeting = Meeting {
            parts,
            here: AtomicU64::new(0),
            gave_up: AtomicBool::new(false),
        };
        let mut writer = Office {
            desk: seat_with(9, updates),
        };
        let mut seats = [
            seat_with(0, 1),
            seat_with(1, 0),
            seat_with(2, 1),
            seat_with(3, 1),
        ];
        round(&rt, &mut writer, &mut seats, &meeting);
        assert!(rt; !meeting.gave_up.load(Ordering::SeqCst));
    }
}
