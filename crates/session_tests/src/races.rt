//! Calls with threads whose answer says what has to hold, whichever thread comes first.

ghost use Rattle.std.specs.Prelude.{◌≤◌};

use crate::place::{Place, open, sessions_in};
use crate::works::{Did, Pace, beside, finished, pause, work};
use sessions::{CloseFault, Desk, RunFault, Session};
use std::alloc::{AllocError, Global};
use std::sync::Wait;
use std::thread::{Threads, join};
use test_support::{Case, CaseFault};

/// How many entries the log has over which the desk is closed with all sessions; None if it is not closed.
fn closed_over<R: Wait>(
    rt: &R,
    alloc: Global,
    place: &mut Place,
) -> Result<Option<usize>, AllocError> {
    let mut sessions = Vec::with_capacity(alloc, 8)?;
    for slot in place.sessions.iter_mut() {
        if let Some(session) = slot.take() {
            sessions.push(session)?;
        }
    }
    match place.desk.take() {
        Some(desk) => Ok(length_of_log(rt, desk, sessions)),
        None => Ok(None),
    }
}

/// How many entries the log has over which the desk is closed; None if it is not closed.
fn length_of_log<R: Wait>(rt: &R, desk: Desk, sessions: Vec<Session>) -> Option<usize> {
    match desk.close(rt, sessions) {
        Ok(closed) => Some(closed.log.len()),
        Err(_) => None,
    }
}

/// Whether the log has an entry for each command that ran, and each other command was stopped by a halt or came too late.
fn is_told(dids: &[Did], length: usize) -> bool {
    let mut ran = 0u64;
    for did in dids {
        ran = ran.saturating_add(did.ran);
        let is_right = match did.fault {
            None | Some(RunFault::Halted) => true,
            Some(RunFault::TurnPassed(len)) => len == length as u64,
            Some(RunFault::OutOfMemory) => false,
        };
        if !is_right {
            return false;
        }
    }
    ran == length as u64
}

/// The length of the log of a new desk with `n` sessions that did these jobs; None if the log is not theirs.
fn raced<R: Threads + Wait + Sync>(
    rt: &R,
    alloc: Global,
    n: u8,
    jobs: &str,
    pace: Pace,
) -> Result<Option<usize>, AllocError>
    requires { (1 ≤ n) × (n ≤ 8) }
{
    let mut place = Place::new(alloc);
    open(alloc, &mut place, n)?;
    let dids = beside(rt, alloc, &mut place, jobs, pace)?;
    match closed_over(rt, alloc, &mut place)? {
        Some(length) if is_told(dids.as_slice(), length) => Ok(Some(length)),
        _ => Ok(None),
    }
}

/// `race TIMES SESSIONS ENTRIES JOBS`: at TIMES new desks, the sessions do these jobs. Each time the log has an entry for
/// each command that ran, and as many as ENTRIES says, which may be `any`. Round by round, `early` is shorter and `late`
/// longer.
pub(crate) fn race<R: Threads + Wait + Sync>(
    rt: &R,
    alloc: Global,
    case: &Case,
    jobs: &str,
    said: &mut String,
) -> Result<(), CaseFault> {
    let times = case.number(1)?;
    let n = sessions_in(case, 2)?;
    let wanted = case.number(3).ok();
    for round in 0..times {
        let pace = Pace {
            early: times.saturating_sub(round),
            late: round,
            sessions: u64::from(n),
        };
        let length = raced(rt, alloc, n, jobs, pace)?;
        let is_right = match (length, wanted) {
            (Some(length), Some(wanted)) => length as u64 == wanted,
            (Some(_), None) => true,
            (None, _) => false,
        };
        if !is_right {
            write!(said, "round {round}: {length:?}")?;
            return Ok(());
        }
    }
    said.push_str("ok")?;
    Ok(())
}

/// A desk to be closed, and the sessions that are handed in.
#[derive(Drop)]
struct Closing {
    desk: Desk,
    handed: Vec<Session>,
}

/// Whether a desk that is closed while this session does its job is closed over an empty log, and the session is halted; or
/// is not closed without the session's one receipt, and then closed with it.
fn is_before_or_after<R: Threads + Wait + Sync>(
    rt: &R,
    alloc: Global,
    closing: Closing,
    session: Session,
    job: &str,
    pace: Pace,
) -> bool {
    let Closing { desk, handed } = closing;
    let ((session, did), answer) = join(
        rt,
        || finished(rt, alloc, session, job, pace),
        || {
            pause(pace.late);
            desk.close(rt, handed)
        },
    );
    match answer {
        Ok(closed) => closed.log.is_empty() && did.ran == 0 && did.fault == Some(RunFault::Halted),
        Err((desk, mut sessions, fault)) => {
            let is_right = fault == CloseFault::Missing(0) && did.ran == 1 && did.fault.is_none();
            let is_whole = sessions.push(session).is_ok();
            is_right && is_whole && length_of_log(rt, desk, sessions) == Some(1)
        }
    }
}

/// The same of a new desk of three, whose last session does the job.
fn is_closed_beside<R: Threads + Wait + Sync>(
    rt: &R,
    alloc: Global,
    job: &str,
    pace: Pace,
) -> Result<bool, AllocError> {
    let desk = Desk::new(alloc, 3)?;
    let handed = vec![in alloc; desk.session(0)?, desk.session(1)?]?;
    let session = desk.session(2)?;
    let closing = Closing { desk, handed };
    Ok(is_before_or_after(rt, alloc, closing, session, job, pace))
}

/// `close_beside TIMES PAUSES JOB`: TIMES new desks of three sessions are closed while the last session does this job. The
/// close comes before it or after it. Round by round, it comes PAUSES later, and `early` is shorter.
pub(crate) fn close_beside<R: Threads + Wait + Sync>(
    rt: &R,
    alloc: Global,
    case: &Case,
    job: &str,
    said: &mut String,
) -> Result<(), CaseFault> {
    let (times, pauses) = (case.number(1)?, case.number(2)?);
    for round in 0..times {
        let pace = Pace {
            early: times.saturating_sub(round),
            late: pauses.saturating_mul(round.saturating_add(1)),
            sessions: 3,
        };
        if !is_closed_beside(rt, alloc, job, pace)? {
            write!(said, "round {round}: neither before nor after")?;
            return Ok(());
        }
    }
    said.push_str("ok")?;
    Ok(())
}

/// A condition variable, and a turn.
type Sleeper = (u8, u64);

/// What two threads get that wait at the desk.
fn both<R: Threads + Wait + Sync>(rt: &R, desk: &Desk, sleepers: [Sleeper; 2]) -> [Option<u64>; 2] {
    let [(first, early), (second, late)] = sleepers;
    let (first, second) = join(
        rt,
        || desk.wait_for(rt, first, early),
        || desk.wait_for(rt, second, late),
    );
    [first, second]
}

/// What they get while the session does its job.
fn both_beside<R: Threads + Wait + Sync>(
    rt: &R,
    alloc: Global,
    desk: &Desk,
    session: &mut Session,
    sleepers: [Sleeper; 2],
    job: &str,
) -> [Option<u64>; 2] {
    let pace = Pace {
        early: 0,
        late: 0,
        sessions: 1,
    };
    let ((), answers) = join(
        rt,
        || {
            work(rt, alloc, session, job, pace);
        },
        || both(rt, desk, sleepers),
    );
    answers
}

/// Says whether a turn has come at a length that the log had.
fn put_turn(
    said: &mut String,
    answer: Option<u64>,
    turn: u64,
    len: usize,
) -> Result<(), CaseFault> {
    match answer {
        Some(found) if turn <= found && found <= len as u64 => said.push_str("come")?,
        Some(found) => write!(said, "come at {found} of {len}")?,
        None => said.push_str("halted")?,
    }
    Ok(())
}

/// `sleep SLEEPER TURN SLEEPER TURN JOB`: two threads wait for their turns, each on its condition variable, while session 0
/// does this job.
pub(crate) fn sleep<R: Threads + Wait + Sync>(
    rt: &R,
    alloc: Global,
    place: &mut Place,
    case: &Case,
    job: &str,
    said: &mut String,
) -> Result<(), CaseFault> {
    let sleepers = [
        (case.number(1)?.min(255) as u8, case.number(2)?),
        (case.number(3)?.min(255) as u8, case.number(4)?),
    ];
    let (Some(desk), Some(Some(session))) = (place.desk.as_ref(), place.sessions.first_mut()) else {
        return Err(CaseFault::Malformed);
    };
    let [first, second] = both_beside(rt, alloc, desk, session, sleepers, job);
    let len = session.receipts.len();
    let [(_, early), (_, late)] = sleepers;
    put_turn(said, first, early, len)?;
    said.push_str(" and ")?;
    put_turn(said, second, late, len)
}
