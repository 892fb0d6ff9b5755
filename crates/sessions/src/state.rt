//! The value behind the lock, and one call of a session on it.

ghost use Rattle.std.specs.Prelude.{◌≡◌, ◌↔◌, ◌+◌, ◌%◌, ℕ, IsTrue, IfOk, IfErr, OnErr, Some, None, slice_index_or, true};
ghost use Rattle.flat_model.specs.Audit.{AreEntries};
ghost use Rattle.undo_journal.specs.CommandMeaning.{command_of};
ghost use Rattle.sessions.specs.Faults.{IsFirstFault};
ghost use Rattle.sessions.specs.Served.{
  Answer,
  AnswerAt,
  IsBut,
  IsEarly,
  IsLate,
  IsSame,
  Served,
  log_in,
  log_len,
  reached_of,
};
ghost use Rattle.sessions.specs.Waits.{AreDue, AreLeft, IsNoLater, IsWoken};

use crate::auditing::audit;
use crate::book::Book;
use crate::waits::Waits;
use crate::{CloseFault, Receipt, RunFault, Session};
use std::alloc::{Allocator, Global};
use std::sync::Wait;
use std::thread::Threads;
use undo_journal::Command;

/// The book, until the desk is closed, and the turns that sessions wait for.
#[derive(Drop)]
pub(crate) struct DeskState {
    pub(crate) book: Option<Book>,
    pub(crate) is_halted: bool,
    /// For each session number the least turn that is waited for, if any.
    pub(crate) waits: Waits,
}

impl DeskState {
    /// Whether a call for this turn has to wait.
    pub(crate) fn is_early(&self, turn: u64) -> bool
        ensures { IsTrue result ↔ IsEarly self.now turn }
    {
        match &self.book {
            Some(book) => !self.is_halted && (book.log.len() as u64) < turn,
            None => false,
        }
    }

    /// Whether a call for this turn has to wait. If so, notes that the session waits for this turn.
    pub(crate) fn must_wait(&mut self, session: u8, turn: u64) -> bool
        ensures early { IsTrue result ↔ IsEarly self.new turn }
        ensures same { IsBut self.old self.new }
        ensures noted { IsTrue result
            → IsWoken turn (slice_index_or self.new.waits (session % 8) None) }
        ensures others { (at : ℕ) → IsNoLater (slice_index_or self.old.waits at None)
            (slice_index_or self.new.waits at None) }
    {
        let is_early = self.is_early(turn);
        if is_early {
            self.waits.note(session, turn);
        }
        is_early
    }

    /// The length of the log, or `None` if the desk is halted or closed.
    pub(crate) fn reached(&self) -> Option<u64>
        ensures { result ≡ reached_of self.now }
    {
        match &self.book {
            Some(book) if !self.is_halted => Some(book.log.len() as u64),
            _ => None,
        }
    }

    /// The sessions whose waiting threads have to be woken, because their turns have come. Drops
    /// the notes of these turns.
    pub(crate) fn take_due(&mut self) -> [bool; 8]
        ensures same { IsBut self.old self.new }
        ensures due { AreDue (reached_of self.old) self.old.waits result }
        ensures left { AreLeft (reached_of self.old) self.old.waits self.new.waits }
    {
        let reached = self.reached();
        self.waits.take_due(reached)
    }

    /// Halts the desk: later calls return `Halted`.
    pub(crate) fn halt(&mut self)
        ensures { self.new ≡ record self.old { is_halted = true } }
    {
        self.is_halted = true;
    }

    /// Takes the book, if these receipts are its log. If the book was taken already, because the
    /// desk was closed, returns `OutOfMemory`.
    pub(crate) fn take_book(
        &mut self,
        alloc: Global,
        n: u8,
        sessions: &[Session],
    ) -> Result<Book, CloseFault>
        ensures book { IfOk result (λ b. self.old.book ≡ Some b) }
        ensures taken { IfOk result (λ _. self.new ≡ record self.old { book = None }) }
        ensures receipts { IfOk result (λ b. AreEntries n b.log.items sessions.now) }
        ensures same { OnErr result (self.new ≡ self.old) }
        ensures fault { IfErr result (λ f.
            IsFirstFault n (log_in self.old.book) sessions.now f) }
    {
        if let Some(book) = &self.book {
            audit(alloc, n, book.log.as_slice(), sessions)?;
        }
        match self.book.take() {
            Some(book) => Ok(book),
            None => Err(CloseFault::OutOfMemory),
        }
    }

    /// Runs a command for a session, and appends its receipt.
    pub(crate) fn serve<R: Threads + Wait + Sync, B: Allocator + Clone>(
        &mut self,
        rt: &R,
        session: u8,
        cmd: &Command<B>,
        receipts: &mut Vec<Receipt>,
    ) -> Result<(), RunFault>
        ensures served { IfOk result (λ _. Served session (command_of cmd.now) self.old self.new
            receipts.old.items receipts.new.items) }
        ensures kept { OnErr result (receipts.new.items ≡ receipts.old.items) }
        ensures same { OnErr result (IsSame self.old self.new) }
        ensures answer { Answer self.old result }
    {
        if self.is_halted {
            return Err(RunFault::Halted);
        }
        let Some(book) = &mut self.book else {
            return Err(RunFault::Halted);
        };
        if receipts.reserve(1).is_err() {
            return Err(RunFault::OutOfMemory);
        }
        let Ok(receipt) = book.record(rt, session, cmd) else {
            return Err(RunFault::OutOfMemory);
        };
        receipts.push_reserved(receipt);
        Ok(())
    }

    /// Runs a command for a session at this turn, and appends its receipt.
    pub(crate) fn serve_at<R: Threads + Wait + Sync, B: Allocator + Clone>(
        &mut self,
        rt: &R,
        session: u8,
        turn: u64,
        cmd: &Command<B>,
        receipts: &mut Vec<Receipt>,
    ) -> Result<(), RunFault>
        requires { ¬ IsEarly self.old turn }
        ensures served { IfOk result (λ _. Served session (command_of cmd.now) self.old self.new
            receipts.old.items receipts.new.items) }
        ensures kept { OnErr result (receipts.new.items ≡ receipts.old.items) }
        ensures same { OnErr result (IsSame self.old self.new) }
        ensures answer { AnswerAt turn self.old result }
    {
        match &self.book {
            Some(book) if !self.is_halted => {
                let len = book.log.len() as u64;
                if turn < len {
                    return Err(RunFault::TurnPassed(len));
                }
            }
            _ => return Err(RunFault::Halted),
        }
        self.serve(rt, session, cmd, receipts)
    }

    /// Runs a command for a session at this turn, appends its receipt, and returns the next turn.
    pub(crate) fn serve_turn<R: Threads + Wait + Sync, B: Allocator + Clone>(
        &mut self,
        rt: &R,
        session: u8,
        turn: u64,
        cmd: &Command<B>,
        receipts: &mut Vec<Receipt>,
    ) -> Result<u64, RunFault>
        requires { ¬ IsEarly self.old turn }
        ensures served { IfOk result (λ _. Served session (command_of cmd.now) self.old self.new
            receipts.old.items receipts.new.items) }
        ensures next { IfOk result (λ next. (next ≡ turn + 1) × (¬ IsEarly self.new next)) }
        ensures number { IfOk result (λ _. log_len self.old ≡ turn) }
        ensures kept { OnErr result (receipts.new.items ≡ receipts.old.items) }
        ensures same { OnErr result (IsSame self.old self.new) }
        ensures late { IfErr result (λ e. IsLate turn e) }
    {
        self.serve_at(rt, session, turn, cmd, receipts)?;
        match &self.book {
            Some(book) => Ok(book.log.len() as u64),
            None => Ok(turn),
        }
    }
}
