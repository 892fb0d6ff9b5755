//! The desk, which opens sessions.

ghost use Rattle.std.specs.Prelude.{◌≡◌, ◌<◌, ◌≤◌, [], IfOk, IfSome};

use crate::book::Book;
use crate::session::Session;
use crate::shared::Shared;
use crate::state::DeskState;
use crate::waits::Waits;
use std::alloc::{AllocError, Global};
use std::marker::Model;
use std::sync::{Arc, Wait};

/// A desk over one engine. Contracts see how many sessions it has and which lock it shares with
/// them. They don't see the value behind the lock.
#[derive(Drop)]
pub struct Desk {
    pub(crate) sessions: u8,
    pub(crate) alloc: Global,
    pub(crate) shared: Arc<Shared>,
}

impl Model for Desk {
    ghost use Rattle.sessions.specs.Desks as desks;

    ghost Value = { desks.Desk };

    ghost view = { λ d. record { sessions = d.sessions; shared = d.shared } };
}

impl Desk {
    /// Creates a desk for sessions numbered below `n`. Its hierarchy has only the root, with
    /// process 1 in it.
    ///
    /// # Errors
    ///
    /// `AllocError` when out of memory.
    pub fn new(alloc: Global, n: u8) -> Result<Desk, AllocError>
        requires { (1 ≤ n) × (n ≤ 8) }
        ensures { IfOk result (λ d. d.sessions ≡ n) }
    {
        Desk::with_capacity(alloc, n, 0)
    }

    /// Creates a desk as `new` does, with memory for `entries` entries of its log. The log can have
    /// more.
    ///
    /// # Errors
    ///
    /// `AllocError` when out of memory.
    pub fn with_capacity(alloc: Global, n: u8, entries: usize) -> Result<Desk, AllocError>
        requires { (1 ≤ n) × (n ≤ 8) }
        ensures { IfOk result (λ d. d.sessions ≡ n) }
    {
        let state = DeskState {
            book: Some(Book::new(alloc, entries)?),
            is_halted: false,
            waits: Waits::none(),
        };
        let shared = Arc::new(alloc, Shared::new(state))?;
        Ok(Desk {
            sessions: n,
            alloc,
            shared,
        })
    }

    /// Opens a session numbered `k`, with no receipts. Each thread that runs commands needs its own
    /// session.
    ///
    /// # Errors
    ///
    /// `AllocError` if the shared pointer could not be cloned.
    pub fn session(&self, k: u8) -> Result<Session, AllocError>
        requires { k < self.now.sessions }
        ensures { IfOk result (λ s. s ≡ record { number = k; receipts = [] }) }
    {
        let shared = Arc::try_clone(&self.shared)?;
        Ok(Session::at_desk(self, k, Vec::new(self.alloc), shared))
    }

    /// Waits until the log has `turn` entries, and returns its length at that moment, or `None` if
    /// the desk is halted or closed. The call doesn't reserve the turn, so the log may be longer
    /// when the caller continues.
    ///
    /// `sleeper`, modulo 8, selects the condition variable to sleep on. In `run_at` a session's
    /// number selects it. Threads that wait at the same time should use different ones: otherwise
    /// each also wakes for the turns of the others.
    pub fn wait_for<R: Wait>(&self, rt: &R, sleeper: u8, turn: u64) -> Option<u64>
        ensures { IfSome result (λ len. turn ≤ len) }
    {
        let state = self.shared.wait_for(rt, sleeper, turn);
        state.reached()
    }
}
