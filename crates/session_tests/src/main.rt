//! Tests of sessions at a desk: a program whose cases are in `data/`.
//!
//! They test what no contract says: that each call succeeds if there is memory, what the replies are, that a desk that was
//! halted or closed answers `halted`, and that threads make progress beside one another. They don't test again what a
//! contract says of every input.
//!
//! A subject is a desk with its sessions. Each call answers what it says here. A session, a desk or an engine that is out of
//! memory has changed nothing: its call is made once more, so that a run with one refused allocation gives the same answers.
//! Without memory for the text of an answer the program ends.
//!
//! | Call | Answer |
//! |---|---|
//! | `desk N` | nothing; the desk has sessions 0 to N - 1 |
//! | `run K LINE`, `run_at K TURN LINE` | the output of the line under the number of the receipt; `halted`; `passed LEN` |
//! | `turns TURN LINE;LINE ..` | nothing; all sessions in turn run the lines in a row; `halted`; `passed LEN` |
//! | `halt K`, `drop K`, `renumber K N` | nothing |
//! | `close K K ..` | `LEN entries`; `stranger N`, `missing N`, `differs N`; the sessions stay in their places |
//! | `audit N K K ..` | of the log of the closed desk, as one of N sessions: nothing, or as `close` |
//! | `receipts K`, `log` | the commands with their replies |
//! | `aside K`, `back K` | nothing; the receipts of a session are put aside, and given back |
//! | `forge K NUMBER REPLY LINE` | nothing; the session has one receipt more |
//! | `order K K ..` | `LEN entries`, if their sessions are these, again and again |
//! | `then LINE` | the reply of the engine that the closed desk left |
//! | `undo_all` | how many commands that engine undid |
//! | `wait SLEEPER TURN` | the length of the log; `halted` |
//! | `beside JOB;JOB ..` | for each session how many commands ran, and why the last did not (`works.rt`) |
//! | `tally` | `ok`, if as many groups are left as the log made and did not undo |
//! | `race`, `close_beside`, `sleep` | what has to hold, whichever thread comes first (`races.rt`) |
#![tactic(auto)]

mod place;
mod races;
mod receipts;
mod texts;
mod works;

use crate::place::{
    Place, audit_log, close, command, open, put_log, put_receipts, rest, run, run_in_turn,
    sessions_in, slot,
};
use crate::races::{close_beside, race, sleep};
use crate::receipts::forge;
use crate::texts::{put_reply_of, put_run_fault};
use crate::works::{Pace, beside};
use sessions::Entry;
use std::alloc::{AllocError, Global};
use std::mem;
use std::process::ExitCode;
use std::sync::Wait;
use std::thread::Threads;
use test_support::{Case, CaseFault, Group, Outcome, Subject, Suite, Tally, run_ample, run_suite};
use undo_journal::{Command, Reply};

/// Says how many entries the log has, if their sessions are those of the words, again and again.
fn put_order(log: &[Entry], case: &Case, said: &mut String) -> Result<(), CaseFault> {
    let period = case.count().saturating_sub(1).max(1);
    for (at, entry) in log.iter().enumerate() {
        if u64::from(entry.session)
            != case.number(at.checked_rem(period).unwrap_or(0).saturating_add(1))?
        {
            write!(said, "entry {at} of session {}", entry.session)?;
            return Ok(());
        }
    }
    write!(said, "{} entries", log.len())?;
    Ok(())
}

/// How many groups the log made and did not undo; None if it has another reply than these commands get.
fn groups_left(log: &[Entry]) -> Option<usize> {
    let mut made = 0usize;
    let mut undone = 0usize;
    for entry in log {
        match (&entry.command, &entry.reply) {
            (Command::MakeGroup(_), Reply::Done) => made = made.saturating_add(1),
            (Command::MakeGroup(_), Reply::Refused(_)) => {}
            (Command::Undo, Reply::Undone(Command::MakeGroup(_))) => {
                undone = undone.saturating_add(1);
            }
            (Command::Undo, Reply::NothingToUndo) => {}
            _ => return None,
        }
    }
    made.checked_sub(undone)
}

/// Says what the sessions did beside one another.
fn put_works<R: Threads + Wait + Sync>(
    rt: &R,
    alloc: Global,
    place: &mut Place,
    jobs: &str,
    said: &mut String,
) -> Result<(), CaseFault> {
    let sessions = place.sessions.len() as u64;
    let pace = Pace {
        early: 0,
        late: 20_000,
        sessions,
    };
    let dids = beside(rt, alloc, place, jobs, pace)?;
    for (at, did) in dids.iter().enumerate() {
        if at > 0 {
            said.push(';')?;
        }
        write!(said, "{}", did.ran)?;
        if let Some(fault) = did.fault {
            said.push(' ')?;
            put_run_fault(said, fault)?;
        }
    }
    Ok(())
}

/// Calls on the engine that a closed desk left.
fn ask_engine<R: Threads + Wait + Sync>(
    rt: &R,
    alloc: Global,
    place: &mut Place,
    case: &Case,
    said: &mut String,
) -> Result<(), CaseFault> {
    let Some(engine) = place.engine.as_mut() else {
        return Err(CaseFault::Malformed);
    };
    match case.word(0) {
        b"undo_all" => match engine.undo_all(rt, 0) {
            Ok(undone) => write!(said, "{undone}")?,
            Err(_) => return Err(CaseFault::OutOfMemory),
        },
        b"tally" => {
            if groups_left(place.log.as_slice()) == Some(engine.depth()) {
                said.push_str("ok")?;
            }
        }
        _ => {
            let line = rest(alloc, case, 1)?;
            let command = command(alloc, line.as_slice())?;
            let reply = match engine.apply(rt, 0, &command) {
                Reply::OutOfMemory => engine.apply(rt, 0, &command),
                reply => reply,
            };
            put_reply_of(alloc, said, 1, &reply)?;
        }
    }
    Ok(())
}

/// Calls with threads.
fn work_beside<R: Threads + Wait + Sync>(
    rt: &R,
    alloc: Global,
    place: &mut Place,
    case: &Case,
    said: &mut String,
) -> Result<(), CaseFault> {
    let from = match case.word(0) {
        b"beside" => 1,
        b"close_beside" => 3,
        b"race" => 4,
        _ => 5,
    };
    let text = rest(alloc, case, from)?;
    let Ok(jobs) = str::from_utf8(text.as_slice()) else {
        return Err(CaseFault::Malformed);
    };
    match case.word(0) {
        b"beside" => put_works(rt, alloc, place, jobs, said),
        b"close_beside" => close_beside(rt, alloc, case, jobs, said),
        b"race" => race(rt, alloc, case, jobs, said),
        _ => sleep(rt, alloc, place, case, jobs, said),
    }
}

/// Calls on one session.
fn ask_session<R: Threads + Wait + Sync>(
    rt: &R,
    alloc: Global,
    place: &mut Place,
    case: &Case,
    said: &mut String,
) -> Result<(), CaseFault> {
    let session = match place.sessions.get_mut(slot(case, 1)) {
        Some(Some(session)) => session,
        _ => return Err(CaseFault::Malformed),
    };
    match case.word(0) {
        b"run" => {
            let line = rest(alloc, case, 2)?;
            run(rt, alloc, session, None, line.as_slice(), said)?;
        }
        b"run_at" => {
            let line = rest(alloc, case, 3)?;
            run(
                rt,
                alloc,
                session,
                Some(case.number(2)?),
                line.as_slice(),
                said,
            )?;
        }
        b"halt" => session.halt(rt),
        b"renumber" => session.number = case.number(2)?.min(255) as u8,
        b"receipts" => put_receipts(alloc, said, session.receipts.as_slice())?,
        b"aside" => place.aside = mem::replace(&mut session.receipts, Vec::new(alloc)),
        b"back" => session.receipts = mem::replace(&mut place.aside, Vec::new(alloc)),
        b"forge" => forge(alloc, session, case)?,
        _ => return Err(CaseFault::Malformed),
    }
    Ok(())
}

/// Makes a call.
fn answer<R: Threads + Wait + Sync>(
    rt: &R,
    alloc: Global,
    place: &mut Place,
    case: &Case,
    said: &mut String,
) -> Result<(), CaseFault> {
    match case.word(0) {
        b"desk" => {
            let n = sessions_in(case, 1)?;
            open(alloc, place, n)?;
        }
        b"drop" => {
            if let Some(slot) = place.sessions.get_mut(slot(case, 1)) {
                *slot = None;
            }
        }
        b"close" => close(rt, alloc, place, case, said)?,
        b"turns" => run_in_turn(rt, alloc, place, case, said)?,
        b"audit" => audit_log(alloc, place, case, said)?,
        b"log" => put_log(alloc, said, place.log.as_slice())?,
        b"order" => put_order(place.log.as_slice(), case, said)?,
        b"wait" => match place.desk.as_ref() {
            Some(desk) => {
                match desk.wait_for(rt, case.number(1)?.min(255) as u8, case.number(2)?) {
                    Some(len) => write!(said, "{len}")?,
                    None => said.push_str("halted")?,
                }
            }
            None => return Err(CaseFault::Malformed),
        },
        b"then" | b"undo_all" | b"tally" => ask_engine(rt, alloc, place, case, said)?,
        b"beside" | b"race" | b"close_beside" | b"sleep" => {
            work_beside(rt, alloc, place, case, said)?;
        }
        _ => ask_session(rt, alloc, place, case, said)?,
    }
    Ok(())
}

impl Subject for Place {
    fn call<R: Threads + Wait + Sync>(
        &mut self,
        rt: &R,
        alloc: Global,
        case: &Case,
        said: &mut String,
    ) -> Result<Outcome, CaseFault> {
        answer(rt, alloc, self, case, said)?;
        Ok(Outcome::Answered)
    }

    fn show(&mut self, alloc: Global, text: &mut String) -> Result<(), AllocError> {
        match put_log(alloc, text, self.log.as_slice()) {
            Ok(()) => Ok(()),
            Err(_) => Err(AllocError),
        }
    }
}

/// The calls on desks.
struct Desks;

impl Suite for Desks {
    fn run<R: Threads + Wait + Sync>(
        &self,
        rt: &R,
        alloc: Global,
        group: &Group,
        tally: &mut Tally,
    ) -> Result<(), AllocError> {
        let mut place = Place::new(alloc);
        run_ample(rt, alloc, &mut place, group, tally)
    }
}

fn main(rt: HostRuntime) -> ExitCode {
    run_suite(&rt, &Desks)
}
