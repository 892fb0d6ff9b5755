//! The second phase: the commands are run at a desk, each by its session at its turn, with a thread
//! for each worker.
//!
//! Each worker runs the commands of its own piece, in a row under one lock, so that few turns have
//! to wake another thread. This doesn't change which session runs a command.

ghost use Rattle.std.specs.Prelude.{◌≡◌, ◌<◌, ◌≤◌, length, replicate, set, vec_len, false, true, IfOk, IfErr};
ghost use Rattle.flat_model.specs.Log.{IsLegal};
ghost use Rattle.replay_main.specs.Replayed.{EndsWork};
ghost use Rattle.sessions.specs.SessionMeaning.{slots};
ghost use denote.Param.Send.{IsSync};

use crate::ReplayFault;
use crate::reading::Script;
use pids_charge::Gate;
use sessions::{CloseFault, Desk, Entry, RunFault, Session};
use std::alloc::{AllocError, Global};
use std::sync::atomic::{AtomicBool, Ordering};
use std::sync::{Mutex, Wait};
use std::thread;
use std::thread::Threads;
use undo_journal::Command;

/// Runs the commands of these scripts at a desk with one session per script. Returns its log.
pub(crate) fn run_commands<R: Threads + Wait + Sync, G: Gate>(
    rt: &R,
    alloc: Global,
    gate: &G,
    scripts: &[Script],
) -> Result<Vec<Entry>, ReplayFault>
    requires { (1 ≤ length scripts.now) × (length scripts.now ≤ 8) }
    ensures legal { IfOk result (λ log. IsLegal slots log.items) }
    ensures fault { IfErr result EndsWork }
{
    let Ok((desk, sessions)) = open_desk(alloc, scripts.len() as u8, count_commands(scripts)) else {
        return Err(ReplayFault::OutOfMemory);
    };
    let Ok(sessions) = serve(rt, gate, &desk, sessions, scripts) else {
        return Err(ReplayFault::OutOfMemory);
    };
    match desk.close(rt, sessions) {
        Ok(closed) => Ok(closed.log),
        Err(refused) => Err(fault_of(refused.2)),
    }
}

/// How many commands the scripts have.
fn count_commands(scripts: &[Script]) -> usize {
    let mut count = 0usize;
    for script in scripts {
        count = count.saturating_add(script.commands.len());
    }
    count
}

/// What a desk that is not closed means for the replay.
fn fault_of(fault: CloseFault) -> ReplayFault
    ensures { EndsWork result }
{
    match fault {
        CloseFault::OutOfMemory => ReplayFault::OutOfMemory,
        CloseFault::Stranger(_) | CloseFault::Missing(_) | CloseFault::Mismatch(_) => {
            ReplayFault::Close
        }
    }
}

/// A desk, and all its sessions. The desk has memory for the log, and each session for the receipts
/// of its share of the commands, so that no turn has to copy a list that grows.
fn open_desk(
    alloc: Global,
    workers: u8,
    commands: usize,
) -> Result<(Desk, Vec<Session>), AllocError>
    requires { (1 ≤ workers) × (workers ≤ 8) }
    ensures { IfOk result (λ r. vec_len r.1 ≡ workers) }
{
    let desk = Desk::with_capacity(alloc, workers, commands)?;
    let share = commands.div_ceil(usize::from(workers));
    let mut sessions = Vec::new(alloc);
    for number in 0..workers {
        let mut session = desk.session(number)?;
        session.receipts.reserve_exact(share)?;
        sessions.push(session)?;
    }
    Ok((desk, sessions))
}

/// Runs command i at turn i, by session i mod the number of sessions. Out of memory in any session
/// is an error.
fn serve<R: Threads + Wait + Sync, G: Gate>(
    rt: &R,
    gate: &G,
    desk: &Desk,
    sessions: Vec<Session>,
    scripts: &[Script],
) -> Result<Vec<Session>, AllocError>
    requires { (1 ≤ length scripts.now) × (length scripts.now ≤ 8) }
{
    let sessions = Mutex::new(sessions);
    let is_short = AtomicBool::new(false);
    serve_all(rt, gate, desk, &sessions, scripts, &is_short);
    if is_short.load(Ordering::SeqCst) {
        return Err(AllocError);
    }
    Ok(sessions.into_inner())
}

/// Starts a thread for each worker but the first. The calling thread does the work of the first, and
/// of each worker whose thread can't be started.
fn serve_all<R: Threads + Wait + Sync, G: Gate>(
    rt: &R,
    gate: &G,
    desk: &Desk,
    sessions: &Mutex<Vec<Session>>,
    scripts: &[Script],
    is_short: &AtomicBool,
)
    requires { (1 ≤ length scripts.now) × (length scripts.now ≤ 8) }
{
    thread::scope(
        thread::scope_env(),
        rt,
        |scope|
            requires { IsSync R.row × IsSync G.row × (1 ≤ length scripts.now)
                × (length scripts.now ≤ 8) }
        {
            let mut is_mine = only(0);
            for worker in 1..scripts.len() {
                let work = move ||
                    requires { (worker < length scripts.now) × (length scripts.now ≤ 8) }
                {
                    work_for(
                        rt,
                        gate,
                        &Shared {
                            desk,
                            sessions,
                            scripts,
                            is_short,
                        },
                        &only(worker),
                    )
                };
                if scope.spawn(work).is_err() {
                    is_mine[worker] = true;
                }
            }
            let shared = Shared {
                desk,
                sessions,
                scripts,
                is_short,
            };
            work_for(rt, gate, &shared, &is_mine);
        },
    );
}

/// Flags of the workers, of which only this worker's is set.
fn only(worker: usize) -> [bool; 8]
    requires { worker < 8 }
    ensures { result ≡ set (replicate 8 false) worker true }
{
    let mut is_mine = [false; 8];
    is_mine[worker] = true;
    is_mine
}

/// What all workers share.
#[derive(Clone, Copy)]
struct Shared<'a> {
    desk: &'a Desk,
    sessions: &'a Mutex<Vec<Session>>,
    scripts: &'a [Script],
    is_short: &'a AtomicBool,
}

/// The work of these workers, in the order of the turns.
fn work_for<R: Threads + Wait + Sync, G: Gate>(
    rt: &R,
    gate: &G,
    shared: &Shared,
    is_mine: &[bool; 8],
)
    requires { (1 ≤ length shared.now.scripts.now) × (length shared.now.scripts.now ≤ 8) }
{
    let workers = shared.scripts.len();
    for worker in 0..workers {
        if is_mine[worker] {
            gate.pass((workers + worker + 1) as u8);
        }
    }
    let mut turn = 0usize;
    for worker in 0..workers {
        let commands = shared.scripts[worker].commands.as_slice();
        if is_mine[worker] && !run_part(rt, shared, worker, turn, commands) {
            break;
        }
        turn = turn.saturating_add(commands.len());
    }
}

/// Runs these commands in a row once the first one's turn has come, each by its own session. False
/// if the desk is halted, as it is after running out of memory. The sessions are not locked during
/// the wait, since the parts before need them.
fn run_part<R: Threads + Wait + Sync>(
    rt: &R,
    shared: &Shared,
    worker: usize,
    turn: usize,
    commands: &[Command<Global>],
) -> bool
    requires { worker < 8 }
{
    let sleeper = worker as u8;
    let turn = turn as u64;
    if shared.desk.wait_for(rt, sleeper, turn).is_none() {
        return false;
    }
    let mut sessions = shared.sessions.lock(rt);
    if sessions.is_empty() {
        return false;
    }
    let ran = shared
        .desk
        .run_turns(rt, sleeper, turn, sessions.as_mut_slice(), commands);
    if let Err(RunFault::OutOfMemory) = ran {
        shared.is_short.store(true, Ordering::SeqCst);
        if let Some(session) = sessions.first_mut() {
            session.halt(rt);
        }
    }
    ran.is_ok()
}
