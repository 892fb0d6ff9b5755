//! A session, which runs commands at a desk and keeps a receipt of each.

ghost use Rattle.std.specs.Prelude.{◌≡◌, ◌+◌, IfOk, IfErr, MatchResult};
ghost use Rattle.std.specs.Arc.{arc_value};
ghost use Rattle.std.specs.Borrow.{sem};
ghost use Rattle.std.specs.Io.BufRead.{Rests};
ghost use Rattle.undo_journal.specs.CommandMeaning.{command_of};
ghost use Rattle.sessions.specs.Receipts.{AddsReceipt, AddsReceiptAt, Last, LastAt};
ghost use Rattle.sessions.specs.Served.{IsEarly, IsLate, NamesNoTurn};

use crate::shared::Shared;
use crate::state::DeskState;
use crate::{Desk, Receipt, RunFault};
use std::alloc::Allocator;
use std::marker::Model;
use std::sync::{Arc, Wait};
use std::thread::Threads;
use undo_journal::Command;

/// A user of a desk, with the receipts of all commands that it ran.
#[derive(Drop)]
pub struct Session {
    /// The session's number at the desk, from 0.
    pub number: u8,
    /// A receipt of each command that the session ran, the newest last.
    pub receipts: Vec<Receipt>,
    shared: Arc<Shared>,
}

impl Model for Session {
    ghost use Rattle.flat_model.specs.Log as log;

    ghost Value = { log.Session };

    ghost view = { λ s. record { number = s.number; receipts = s.receipts.items } };
}

impl Session {
    ghost use Rattle.sessions.specs.contracts.session.Session.{the_row};

    /// A session at this desk, with which it shares the lock. No other function makes a session.
    pub(crate) fn at_desk(
        desk: &Desk,
        number: u8,
        receipts: Vec<Receipt>,
        shared: Arc<Shared>,
    ) -> Session
        requires { arc_value shared ≡ arc_value desk.now.shared }
        ensures { result ≡ record { number = number; receipts = receipts.items } }
    {
        let _ = desk;
        Session {
            number,
            receipts,
            shared,
        }
    }

    /// Runs one command while no other session runs one. Appends its receipt and returns it. The
    /// log entry and the receipt have the same number. The call may wait for other sessions.
    ///
    /// # Errors
    ///
    /// The first of these that applies: `Halted`, `OutOfMemory`. Nothing was logged or changed.
    pub fn run<R: Threads + Wait + Sync, B: Allocator + Clone>(
        &mut self,
        rt: &R,
        cmd: &Command<B>,
    ) -> Result<&Receipt, RunFault>
        ensures* after { sem 𝓛 (Rests the_row self.entry
            (λ new. AddsReceipt (command_of cmd.now) self.old new result)) }
        ensures fault { IfErr result (λ e. NamesNoTurn e) }
    {
        self.serve(rt, cmd)?;
        let last = self.receipts.len() - 1;
        Ok(&self.receipts[last])
    }

    /// Waits until the log has `turn` entries, and runs one command. Appends its receipt and
    /// returns it. Its log entry and its receipt have the number `turn`.
    ///
    /// # Errors
    ///
    /// The first of these that applies: `Halted`; `TurnPassed` with the log's length, if that is
    /// above `turn`; `OutOfMemory`. Nothing was logged or changed.
    pub fn run_at<R: Threads + Wait + Sync, B: Allocator + Clone>(
        &mut self,
        rt: &R,
        turn: u64,
        cmd: &Command<B>,
    ) -> Result<&Receipt, RunFault>
        ensures* after { sem 𝓛 (Rests the_row self.entry
            (λ new. AddsReceiptAt turn (command_of cmd.now) self.old new result)) }
        ensures late { IfErr result (λ e. IsLate turn e) }
    {
        self.serve_at(rt, turn, cmd)?;
        let last = self.receipts.len() - 1;
        Ok(&self.receipts[last])
    }

    /// Stops the desk. Every waiting or later `run` and `run_at` of its sessions returns `Halted`.
    /// The desk can still be closed.
    pub fn halt<R: Wait>(&mut self, rt: &R)
        ensures { self.new ≡ self.old }
    {
        let mut state = self.shared.state.lock(rt);
        state.halt();
        self.shared.leave(state);
    }

    fn serve<R: Threads + Wait + Sync, B: Allocator + Clone>(
        &mut self,
        rt: &R,
        cmd: &Command<B>,
    ) -> Result<(), RunFault>
        ensures ran { MatchResult result (λ _. Last (command_of cmd.now) self.old self.new)
            (λ _. self.new ≡ self.old) }
        ensures fault { IfErr result (λ e. NamesNoTurn e) }
    {
        let Session {
            number,
            receipts,
            shared,
        } = self;
        let mut state = shared.state.lock(rt);
        let outcome = state.serve(rt, *number, cmd, receipts);
        shared.leave(state);
        outcome
    }

    fn serve_at<R: Threads + Wait + Sync, B: Allocator + Clone>(
        &mut self,
        rt: &R,
        turn: u64,
        cmd: &Command<B>,
    ) -> Result<(), RunFault>
        ensures ran { MatchResult result (λ _. LastAt turn (command_of cmd.now) self.old self.new)
            (λ _. self.new ≡ self.old) }
        ensures late { IfErr result (λ e. IsLate turn e) }
    {
        let Session {
            number,
            receipts,
            shared,
        } = self;
        let mut state = shared.wait_for(rt, *number, turn);
        let outcome = state.serve_at(rt, *number, turn, cmd, receipts);
        shared.leave(state);
        outcome
    }

    /// Runs a command at this turn in the state of the session's desk, and returns the next turn.
    pub(crate) fn serve_in<R: Threads + Wait + Sync, B: Allocator + Clone>(
        &mut self,
        rt: &R,
        state: &mut DeskState,
        turn: u64,
        cmd: &Command<B>,
    ) -> Result<u64, RunFault>
        requires { ¬ IsEarly state.old turn }
        ensures ran { MatchResult result (λ _. LastAt turn (command_of cmd.now) self.old self.new)
            (λ _. self.new ≡ self.old) }
        ensures next { IfOk result (λ next. (next ≡ turn + 1) × (¬ IsEarly state.new next)) }
        ensures late { IfErr result (λ e. IsLate turn e) }
    {
        let Session {
            number,
            receipts,
            shared: _,
        } = self;
        state.serve_turn(rt, *number, turn, cmd, receipts)
    }
}
