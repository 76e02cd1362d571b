//! What looks on at each call of a lane, and holds some of them.
use rev_workers::Gate;
use std::sync::atomic::{AtomicU64, Ordering};
use std::thread;

// A lane's call that is held, until which is answered, and for how many turns at most.
pub(crate) type Hold = ((u32, u32), (u32, u32), u64);

// No lane has this call.
pub(crate) const NONE: Hold = ((64, 0), (64, 0), 0);

// The first call of lane 1 comes behind that of lane 0.
pub(crate) const BEHIND_1: Hold = ((1, 1), (0, 1), 1_000_000);

#[derive(Drop)]
struct Holding {
    hold: Hold,
    answered: AtomicU64,
}

impl Holding {
    fn new(hold: Hold) -> Holding {
        Holding {
            hold,
            answered: AtomicU64::new(0),
        }
    }

    fn before(&self, lane: u32, place: u32) {
        let (held, _, turns) = self.hold;
        if (lane, place) == held {
            for _ in 0..turns {
                if self.answered.load(Ordering::SeqCst) == 1 {
                    break;
                }
                thread::yield_now();
            }
        }
    }

    // Whether the answer is one that ends the hold.
    fn after(&self, lane: u32, place: u32) -> bool {
        let (_, until, _) = self.hold;
        if (lane, place) != until {
            return false;
        }
        self.answered.store(1, Ordering::SeqCst);
        true
    }
}

// Holds two calls. The lane whose answer ends the first hold goes on only so many turns after that.
#[derive(Drop)]
pub(crate) struct Gates {
    first: Holding,
    second: Holding,
    lingers: u64,
}

impl Gates {
    pub(crate) fn new(first: Hold, second: Hold, lingers: u64) -> Gates {
        Gates {
            first: Holding::new(first),
            second: Holding::new(second),
            lingers,
        }
    }
}

impl Gate for Gates {
    fn before(&self, lane: u32, place: u32) {
        self.first.before(lane, place);
        self.second.before(lane, place);
    }

    fn after(&self, lane: u32, place: u32) {
        let ends = self.first.after(lane, place);
        self.second.after(lane, place);
        if ends {
            for _ in 0..self.lingers {
                thread::yield_now();
            }
        }
    }
}
