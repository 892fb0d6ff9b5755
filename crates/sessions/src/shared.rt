//! What a desk and its sessions share: the state behind its lock, and how a session waits for a
//! turn.

ghost use Rattle.std.specs.Sync.Mutex.{mutex_guard_value};
ghost use Rattle.std.specs.Prelude.{◌%◌, None, slice_index_or};
ghost use Rattle.sessions.specs.Served.{IsEarly};
ghost use Rattle.sessions.specs.Waits.{IsWoken};

use crate::state::DeskState;
use std::sync::{Condvar, Mutex, MutexGuard, Wait};

/// The state behind its lock, and for each session the condition variable on which it sleeps.
#[derive(Drop)]
pub(crate) struct Shared {
    pub(crate) state: Mutex<DeskState>,
    woken: [Condvar; 8],
}

impl Shared {
    pub(crate) fn new(state: DeskState) -> Shared {
        Shared {
            state: Mutex::new(state),
            woken: [
                Condvar::new(),
                Condvar::new(),
                Condvar::new(),
                Condvar::new(),
                Condvar::new(),
                Condvar::new(),
                Condvar::new(),
                Condvar::new(),
            ],
        }
    }

    /// Waits for the turn. It sleeps at once, because a session that polls slows the sessions whose
    /// turns come first.
    pub(crate) fn wait_for<R: Wait>(
        &self,
        rt: &R,
        session: u8,
        turn: u64,
    ) -> MutexGuard<'_, DeskState>
        ensures { ¬ IsEarly (mutex_guard_value result) turn }
    {
        let mut state = self.state.lock(rt);
        for _ in rt.forever() {
            if !state.must_wait(session, turn) {
                return state;
            }
            state = self.sleep(rt, state, session, turn);
        }
        unreachable!()
    }

    /// Sleeps until it is woken, perhaps for no reason. Requires that the turn is noted, so that the
    /// session that reaches it wakes this one.
    fn sleep<'a, R: Wait>(
        &self,
        rt: &R,
        state: MutexGuard<'a, DeskState>,
        session: u8,
        turn: u64,
    ) -> MutexGuard<'a, DeskState>
        requires { IsWoken turn (slice_index_or (mutex_guard_value state).waits (session % 8) None) }
    {
        let _ = turn;
        self.woken[usize::from(session % 8)].wait(rt, state)
    }

    /// Unlocks the state, and wakes the sessions whose turns have come.
    pub(crate) fn leave(&self, guard: MutexGuard<'_, DeskState>) {
        let mut guard = guard;
        let due = guard.take_due();
        drop(guard);
        for at in 0..8 {
            if due[at] {
                self.woken[at].notify_all();
            }
        }
    }
}
