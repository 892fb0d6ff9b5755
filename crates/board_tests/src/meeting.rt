//! A test hook where the parts of a settlement wait for one another. `.ci/refused/run` sees the call by which each part lets
//! other threads run first.

use pids_charge::Gate;
use std::thread::yield_now;
use test_support::Barrier;

/// A barrier for the parts.
#[derive(Drop)]
pub(crate) struct Meeting {
    barrier: Barrier,
}

impl Meeting {
    /// A barrier for this many parts, none of which has arrived.
    pub(crate) fn new(parts: usize) -> Meeting {
        Meeting {
            barrier: Barrier::new(parts, parts),
        }
    }

    /// Says whether exactly these parts arrived, and none missed another.
    pub(crate) fn said(&self) -> &'static str {
        if self.barrier.met() {
            ", met"
        } else {
            ", not met"
        }
    }
}

impl Gate for Meeting {
    fn pass(&self, part: u8) {
        yield_now();
        self.barrier.pass(part);
    }
}
