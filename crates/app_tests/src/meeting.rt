// A gate at which two actors meet.
use sl_actor::Gate;
use std::sync::atomic::{AtomicU64, Ordering};
use std::thread;

/// How often an actor looks for the other.
const TRIES: u64 = 100_000_000;

/// Each of two actors goes on from its first round only when the other began its own; where it
/// doesn't see that, it goes on all the same, and that is noted.
#[derive(Drop)]
pub struct Meeting {
    one: u32,
    other: u32,
    one_began: AtomicU64,
    other_began: AtomicU64,
    met: AtomicU64,
}

impl Meeting {
    pub fn new(one: u32, other: u32) -> Meeting {
        Meeting {
            one,
            other,
            one_began: AtomicU64::new(0),
            other_began: AtomicU64::new(0),
            met: AtomicU64::new(0),
        }
    }

    /// How many of the two saw the other.
    pub fn met(&self) -> u64 {
        self.met.load(Ordering::SeqCst)
    }
}

/// Whether the other began its first round, looking often.
fn comes(other: &AtomicU64) -> bool {
    for tried in 0..TRIES {
        if other.load(Ordering::SeqCst) != 0 {
            return true;
        }
        if tried % 1024 == 0 {
            thread::yield_now();
        }
    }
    false
}

/// Notes that the first round begins; after it, waits for the other.
fn wait_for(own: &AtomicU64, other: &AtomicU64, met: &AtomicU64, round: u64) {
    if round == 0 {
        own.store(1, Ordering::SeqCst);
    }
    if round == 1 && comes(other) {
        met.fetch_add(1, Ordering::SeqCst);
    }
}

impl Gate for Meeting {
    ghost use Rattle.std.specs.Prelude.{⊤};

    ghost passed = { λ gate actor round. ⊤ };

    fn pass(&self, actor: u32, round: u64) {
        if actor == self.one {
            wait_for(&self.one_began, &self.other_began, &self.met, round);
        }
        if actor == self.other {
            wait_for(&self.other_began, &self.one_began, &self.met, round);
        }
    }
}
