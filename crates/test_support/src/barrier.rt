//! A barrier at which the parts of a test hook wait for one another.

use std::sync::atomic::{AtomicBool, Ordering};
use std::thread::yield_now;

/// A part polls another's flag at most this often. It lets other threads run after each look, so that a busy machine starts
/// them all meanwhile.
const TURNS: u32 = 20_000_000;

/// The most parts.
const MOST: usize = 9;

/// A barrier at which each part sets its flag and waits for the flags of the others of its group, for a bounded time.
#[derive(Drop)]
pub struct Barrier {
    flags: [AtomicBool; MOST],
    parts: usize,
    size: usize,
    missed: AtomicBool,
}

impl Barrier {
    /// A barrier for `parts` parts, at most nine, in groups of `size`. None has arrived.
    pub fn new(parts: usize, size: usize) -> Barrier {
        Barrier {
            flags: [
                AtomicBool::new(false),
                AtomicBool::new(false),
                AtomicBool::new(false),
                AtomicBool::new(false),
                AtomicBool::new(false),
                AtomicBool::new(false),
                AtomicBool::new(false),
                AtomicBool::new(false),
                AtomicBool::new(false),
            ],
            parts: parts.min(MOST),
            size,
            missed: AtomicBool::new(false),
        }
    }

    // Whether the part with this index has arrived.
    fn has_come(&self, at: usize) -> bool {
        at < MOST && self.flags[at].load(Ordering::SeqCst)
    }

    // Waits for the part with this index. Returns whether it arrived.
    fn sees(&self, at: usize) -> bool {
        for _turn in 0..TURNS {
            if self.has_come(at) {
                return true;
            }
            yield_now();
        }
        self.missed.store(true, Ordering::SeqCst);
        false
    }

    /// The part with this number, from 1 on, arrives and waits.
    pub fn pass(&self, part: u8) {
        let at = usize::from(part.saturating_sub(1));
        if at >= MOST {
            self.missed.store(true, Ordering::SeqCst);
            return;
        }
        self.flags[at].store(true, Ordering::SeqCst);
        let size = self.size.max(1);
        for other in 0..self.parts {
            let is_with = other / size == at / size;
            if is_with && !self.sees(other) {
                return;
            }
        }
    }

    /// Whether exactly these parts arrived, and none missed another.
    pub fn met(&self) -> bool {
        let mut met = !self.missed.load(Ordering::SeqCst);
        for at in 0..MOST {
            let is_right = self.has_come(at) == (at < self.parts);
            met = met & is_right;
        }
        met
    }
}
