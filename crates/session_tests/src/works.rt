//! What sessions do beside one another, each in a thread of its own, as the case files write it.
//!
//! A job is `STEP,STEP` or `TIMES x STEP,STEP`. A step is a line of a trace; `at TURN LINE`, which waits for its turn; `halt`;
//! `rest`, which does nothing; `pause`, after which a session that waits is asleep; or `early` or `late`, the pauses of a
//! race. In a step `#` is the number of the round times that of the sessions, plus the number of the session.

use crate::place::{Place, command};
use sessions::{RunFault, Session};
use std::alloc::{AllocError, Global};
use std::sync::Wait;
use std::thread::{Threads, map_vec, yield_now};
use test_support::CaseFault;

/// After this many pauses a session that waits is asleep.
pub(crate) const SLEEP: u64 = 100_000;

/// The pauses of a race, and how many sessions take part.
#[derive(Clone, Copy)]
pub(crate) struct Pace {
    pub(crate) early: u64,
    pub(crate) late: u64,
    pub(crate) sessions: u64,
}

/// A round of a job: the number that stands for `#`, and the pauses.
#[derive(Clone, Copy)]
struct Round {
    number: u64,
    pace: Pace,
}

/// How many commands ran, each at its turn if it had one, and why the last one that did not run did not.
#[derive(Clone, Copy)]
pub(crate) struct Did {
    pub(crate) ran: u64,
    pub(crate) fault: Option<RunFault>,
}

/// Yields to other threads this many times.
pub(crate) fn pause(times: u64) {
    for _ in 0..times {
        yield_now();
    }
}

/// The step with its number.
fn numbered(alloc: Global, step: &str, number: u64) -> Result<String, AllocError> {
    let mut text = String::new(alloc);
    for (at, part) in step.split('#').enumerate() {
        if at > 0 {
            write!(text, "{number}")?;
        }
        text.push_str(part)?;
    }
    Ok(text)
}

/// Runs the command of a step, at its turn if it has one.
fn run_step<R: Threads + Wait + Sync>(
    rt: &R,
    alloc: Global,
    session: &mut Session,
    step: &str,
    did: &mut Did,
) -> Result<(), CaseFault> {
    let (turn, line) = match step.strip_prefix("at ") {
        Some(rest) => match rest.split_once(' ') {
            Some((turn, line)) => (turn.parse::<u64>().ok(), line),
            None => (None, rest),
        },
        None => (None, step),
    };
    let command = command(alloc, line.as_bytes())?;
    let answer = match turn {
        Some(turn) => session.run_at(rt, turn, &command),
        None => session.run(rt, &command),
    };
    match answer {
        Ok(receipt) => {
            let is_right = turn.is_none() || turn == Some(receipt.number);
            did.ran = did.ran.saturating_add(u64::from(is_right));
        }
        Err(fault) => did.fault = Some(fault),
    }
    Ok(())
}

/// Does a step.
fn take_step<R: Threads + Wait + Sync>(
    rt: &R,
    alloc: Global,
    session: &mut Session,
    step: &str,
    pace: Pace,
    did: &mut Did,
) -> Result<(), CaseFault> {
    match step {
        "rest" => {}
        "pause" => pause(SLEEP),
        "early" => pause(pace.early),
        "late" => pause(pace.late),
        "halt" => session.halt(rt),
        step => run_step(rt, alloc, session, step, did)?,
    }
    Ok(())
}

/// Does the steps of a round.
fn take_steps<R: Threads + Wait + Sync>(
    rt: &R,
    alloc: Global,
    session: &mut Session,
    steps: &str,
    round: Round,
    did: &mut Did,
) -> Result<(), CaseFault> {
    for step in steps.split(',') {
        let step = numbered(alloc, step, round.number)?;
        take_step(rt, alloc, session, step.as_str(), round.pace, did)?;
    }
    Ok(())
}

/// Does a job. A step that can't be done ends it.
pub(crate) fn work<R: Threads + Wait + Sync>(
    rt: &R,
    alloc: Global,
    session: &mut Session,
    job: &str,
    pace: Pace,
) -> Did {
    let (times, steps) = match job.split_once(" x ") {
        Some((times, steps)) => (times.parse::<u64>().unwrap_or(0), steps),
        None => (1, job),
    };
    let mut did = Did {
        ran: 0,
        fault: None,
    };
    for time in 0..times {
        let number = time
            .saturating_mul(pace.sessions)
            .saturating_add(u64::from(session.number));
        let round = Round { number, pace };
        if take_steps(rt, alloc, session, steps, round, &mut did).is_err() {
            did.fault = Some(RunFault::OutOfMemory);
        }
    }
    did
}

/// Does a job, and returns the session.
pub(crate) fn finished<R: Threads + Wait + Sync>(
    rt: &R,
    alloc: Global,
    mut session: Session,
    job: &str,
    pace: Pace,
) -> (Session, Did) {
    let did = work(rt, alloc, &mut session, job, pace);
    (session, did)
}

/// A session with its place and its job.
type Job<'a> = (usize, Session, &'a str);

/// Does a job, and returns the session with its place.
fn finished_at<'a, R: Threads + Wait + Sync>(
    rt: &R,
    alloc: Global,
    pace: Pace,
    job: Job<'a>,
) -> (usize, Session, Did) {
    let (at, session, text) = job;
    let (session, did) = finished(rt, alloc, session, text, pace);
    (at, session, did)
}

/// The sessions do these jobs beside one another, each in a thread of its own, the first one that of place 0. Returns what
/// they did.
pub(crate) fn beside<R: Threads + Wait + Sync>(
    rt: &R,
    alloc: Global,
    place: &mut Place,
    jobs: &str,
    pace: Pace,
) -> Result<Vec<Did>, AllocError> {
    let mut taken = Vec::with_capacity(alloc, 8)?;
    for (at, job) in jobs.split(';').enumerate() {
        if let Some(slot) = place.sessions.get_mut(at) {
            if let Some(session) = slot.take() {
                taken.push((at, session, job))?;
            }
        }
    }
    let done = map_vec(rt, taken, &|job| finished_at(rt, alloc, pace, job))?;
    let mut dids = Vec::with_capacity(alloc, 8)?;
    for (at, session, did) in done {
        if let Some(slot) = place.sessions.get_mut(at) {
            *slot = Some(session);
        }
        dids.push(did)?;
    }
    Ok(dids)
}
