//! Commands that run in a row at a desk, each by its session at its turn.

ghost use Rattle.std.specs.Prelude.{◌≡◌, ◌+◌, ◌<◌, length, map, IfOk, IfErr, MatchResult};
ghost use Rattle.undo_journal.specs.CommandMeaning.{command_of};
ghost use Rattle.sessions.specs.Served.{IsEarly, IsLate};
ghost use Rattle.sessions.specs.Turns.{TakeSomeTurns, TakeTurns, TakesTurn};

use crate::state::DeskState;
use crate::{Desk, RunFault, Session};
use std::alloc::Allocator;
use std::sync::Wait;
use std::thread::Threads;
use undo_journal::Command;

impl Desk {
    /// Waits until the log has `turn` entries, and runs these commands in a row: the i-th at turn
    /// `turn + i`. The session at the index of a command's turn, modulo their number, runs it and
    /// gets its receipt. No other command runs in between, since the call locks the desk once.
    ///
    /// The sessions are those of this desk: a receipt is for this desk's log, whichever desk opened
    /// its session. `sleeper` selects a condition variable as in `wait_for`.
    ///
    /// # Errors
    ///
    /// As for `run_at`, of the first command that can't run. Those before it have run.
    pub fn run_turns<R: Threads + Wait + Sync, B: Allocator + Clone>(
        &self,
        rt: &R,
        sleeper: u8,
        turn: u64,
        sessions: &mut [Session],
        cmds: &[Command<B>],
    ) -> Result<(), RunFault>
        requires { 0 < length sessions.old }
        ensures ran { MatchResult result
            (λ _. TakeTurns turn (map command_of cmds.now) sessions.old sessions.new)
            (λ _. TakeSomeTurns turn (map command_of cmds.now) sessions.old sessions.new) }
        ensures late { IfErr result (λ e. IsLate turn e) }
    {
        let mut state = self.shared.wait_for(rt, sleeper, turn);
        let outcome = serve_turns(rt, &mut state, turn, sessions, cmds);
        self.shared.leave(state);
        outcome
    }
}

/// Runs these commands in a row, the first at this turn.
fn serve_turns<R: Threads + Wait + Sync, B: Allocator + Clone>(
    rt: &R,
    state: &mut DeskState,
    turn: u64,
    sessions: &mut [Session],
    cmds: &[Command<B>],
) -> Result<(), RunFault>
    requires some { 0 < length sessions.old }
    requires early { ¬ IsEarly state.old turn }
    ensures ran { MatchResult result
        (λ _. TakeTurns turn (map command_of cmds.now) sessions.old sessions.new)
        (λ _. TakeSomeTurns turn (map command_of cmds.now) sessions.old sessions.new) }
    ensures late { IfErr result (λ e. IsLate turn e) }
{
    let mut next = turn;
    for cmd in cmds {
        next = serve_turn(rt, state, next, sessions, cmd)?;
    }
    Ok(())
}

/// Runs a command at this turn, by the session whose turn it is, and returns the next turn.
fn serve_turn<R: Threads + Wait + Sync, B: Allocator + Clone>(
    rt: &R,
    state: &mut DeskState,
    turn: u64,
    sessions: &mut [Session],
    cmd: &Command<B>,
) -> Result<u64, RunFault>
    requires some { 0 < length sessions.old }
    requires early { ¬ IsEarly state.old turn }
    ensures ran { MatchResult result
        (λ _. TakesTurn turn (command_of cmd.now) sessions.old sessions.new)
        (λ _. sessions.new ≡ sessions.old) }
    ensures next { IfOk result (λ next. (next ≡ turn + 1) × (¬ IsEarly state.new next)) }
    ensures late { IfErr result (λ e. IsLate turn e) }
{
    let at = (turn % sessions.len() as u64) as usize;
    let session = &mut sessions[at];
    session.serve_in(rt, state, turn, cmd)
}
