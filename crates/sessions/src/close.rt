//! Closing a desk: what it returns, and whether the receipts passed to it are its log.

ghost use Rattle.std.specs.Prelude.{◌≡◌, IfOk, IfErr};
ghost use Rattle.flat_model.specs.Log.{IsLegal, log_end};
ghost use Rattle.flat_model.specs.Audit.{AreEntries};
ghost use Rattle.undo_journal.specs.Timeline.{from_start};
ghost use Rattle.sessions.specs.Faults.{IsRefused};
ghost use Rattle.sessions.specs.SessionMeaning.{slots};

use crate::book::{Book, DeskEngine};
use crate::desk::Desk;
use crate::entry::Entry;
use crate::fault::CloseFault;
use crate::session::Session;
use std::alloc::Global;
use std::sync::Wait;

/// What a closed desk returns: its engine, its log and the sessions passed to `close`.
#[derive(Drop)]
pub struct Closed {
    /// The engine, in the state at the log's end. It has never forgotten a command.
    pub engine: DeskEngine,
    /// The log.
    pub log: Vec<Entry>,
    /// The sessions, unchanged.
    pub sessions: Vec<Session>,
}

impl Desk {
    /// Ends the desk if the receipts of these sessions are the entries of its log, each once. From
    /// then on every session of the desk returns `Halted`. The call takes time linear in the log
    /// and the receipts. It may wait for a session that runs a command.
    ///
    /// # Errors
    ///
    /// Returns desk and sessions unchanged, with the fault that `audit` finds in the desk's log.
    /// The desk stays open.
    pub fn close<R: Wait>(
        self,
        rt: &R,
        sessions: Vec<Session>,
    ) -> Result<Closed, (Desk, Vec<Session>, CloseFault)>
        ensures legal { IfOk result (λ c. IsLegal slots c.log.items) }
        ensures at_end { IfOk result (λ c. c.engine ≡ from_start (log_end slots c.log.items)) }
        ensures receipts { IfOk result (λ c. AreEntries self.sessions c.log.items sessions.items) }
        ensures sessions { IfOk result (λ c. c.sessions.items ≡ sessions.items) }
        ensures refused { IfErr result (λ e. (e.0 ≡ self) × (e.1.items ≡ sessions.items)) }
        ensures fault { IfErr result (λ e. IsRefused self.sessions sessions.items e.2) }
    {
        match self.take_book(rt, sessions.as_slice()) {
            Ok(book) => {
                let Book {
                    alloc: _,
                    engine,
                    log,
                } = book;
                Ok(Closed {
                    engine,
                    log,
                    sessions,
                })
            }
            Err(fault) => Err((self, sessions, fault)),
        }
    }

    /// Takes the book, if these receipts are its log.
    fn take_book<R: Wait>(&self, rt: &R, sessions: &[Session]) -> Result<Book, CloseFault>
        ensures receipts { IfOk result (λ b. AreEntries self.now.sessions b.log.items sessions.now) }
        ensures fault { IfErr result (λ f. IsRefused self.now.sessions sessions.now f) }
    {
        let mut state = self.shared.state.lock(rt);
        let taken = state.take_book(self.alloc, self.sessions, sessions);
        self.shared.leave(state);
        taken
    }
}
