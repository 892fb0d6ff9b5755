//! The subject: a desk with its sessions, and what the desk left when it was closed.

ghost use Rattle.std.specs.Prelude.{◌≤◌, IfOk};

use crate::texts::{put_close_fault, put_command, put_reply_of, put_run_fault};
use sessions::{CloseFault, Closed, Desk, DeskEngine, Entry, Receipt, RunFault, Session, audit};
use std::alloc::{AllocError, Global};
use std::sync::Wait;
use std::thread::Threads;
use test_support::{Case, CaseFault};
use trace_lines::{Line, parse_line};
use undo_journal::Command;

/// A desk with its sessions, or what it left when it was closed. The place of a session that was dropped is empty.
#[derive(Drop)]
pub(crate) struct Place {
    pub(crate) desk: Option<Desk>,
    pub(crate) sessions: Vec<Option<Session>>,
    /// Receipts that were put aside.
    pub(crate) aside: Vec<Receipt>,
    pub(crate) engine: Option<DeskEngine>,
    pub(crate) log: Vec<Entry>,
}

impl Place {
    /// No desk.
    pub(crate) fn new(alloc: Global) -> Place {
        Place {
            desk: None,
            sessions: Vec::new(alloc),
            aside: Vec::new(alloc),
            engine: None,
            log: Vec::new(alloc),
        }
    }
}

/// The index that this word is; one without a session if it is none.
pub(crate) fn slot(case: &Case, at: usize) -> usize {
    match case.number(at) {
        Ok(number) => number as usize,
        Err(_) => usize::MAX,
    }
}

/// The number of sessions that this word is, from 1 to 8.
pub(crate) fn sessions_in(case: &Case, at: usize) -> Result<u8, CaseFault>
    ensures { IfOk result (λ n. (1 ≤ n) × (n ≤ 8)) }
{
    match case.word(at) {
        [digit @ b'1'..=b'8'] => Ok(*digit - b'0'),
        _ => Err(CaseFault::Malformed),
    }
}

/// Opens a desk with this many sessions.
pub(crate) fn open(alloc: Global, place: &mut Place, n: u8) -> Result<(), AllocError>
    requires { (1 ≤ n) × (n ≤ 8) }
{
    let desk = Desk::new(alloc, n)?;
    place.sessions.clear();
    for k in 0..n {
        place.sessions.push(Some(desk.session(k)?))?;
    }
    place.desk = Some(desk);
    Ok(())
}

/// The words of a call from this index on, separated by blanks.
pub(crate) fn rest(alloc: Global, case: &Case, from: usize) -> Result<Vec<u8>, AllocError> {
    let mut text = Vec::new(alloc);
    for at in from..case.count() {
        if at > from {
            text.push(b' ')?;
        }
        text.extend_from_slice(case.word(at))?;
    }
    Ok(text)
}

/// The command of this line.
pub(crate) fn command(alloc: Global, line: &[u8]) -> Result<Command<Global>, CaseFault> {
    match parse_line(alloc, line) {
        Ok(Line::Run(command)) => Ok(command),
        Ok(Line::Skip | Line::Fault(_)) => Err(CaseFault::Malformed),
        Err(AllocError) => Err(CaseFault::OutOfMemory),
    }
}

/// Runs the command once by this session, at its turn if there is one. Returns why it did not run.
fn run_once<R: Threads + Wait + Sync>(
    rt: &R,
    alloc: Global,
    session: &mut Session,
    turn: Option<u64>,
    command: &Command<Global>,
    said: &mut String,
) -> Result<Option<RunFault>, CaseFault> {
    let answer = match turn {
        Some(turn) => session.run_at(rt, turn, command),
        None => session.run(rt, command),
    };
    match answer {
        Ok(receipt) => {
            put_reply_of(alloc, said, receipt.number, &receipt.reply)?;
            Ok(None)
        }
        Err(fault) => Ok(Some(fault)),
    }
}

/// Runs a command by this session, at its turn if there is one. If the session is out of memory, it runs it once more.
pub(crate) fn run<R: Threads + Wait + Sync>(
    rt: &R,
    alloc: Global,
    session: &mut Session,
    turn: Option<u64>,
    line: &[u8],
    said: &mut String,
) -> Result<(), CaseFault> {
    let command = command(alloc, line)?;
    let mut fault = run_once(rt, alloc, session, turn, &command, said)?;
    if let Some(RunFault::OutOfMemory) = fault {
        fault = run_once(rt, alloc, session, turn, &command, said)?;
    }
    match fault {
        Some(fault) => put_run_fault(said, fault),
        None => Ok(()),
    }
}

/// Takes the sessions in the places that the words from this index on name.
fn handed(
    alloc: Global,
    place: &mut Place,
    case: &Case,
    from: usize,
) -> Result<Vec<Session>, AllocError> {
    let mut handed = Vec::with_capacity(alloc, 8)?;
    for at in from..case.count() {
        if let Some(slot) = place.sessions.get_mut(slot(case, at)) {
            if let Some(session) = slot.take() {
                handed.push(session)?;
            }
        }
    }
    Ok(handed)
}

/// Puts the sessions into the places that the words from this index on name.
fn put_back(place: &mut Place, case: &Case, from: usize, sessions: Vec<Session>) {
    for (at, session) in (from..case.count()).zip(sessions) {
        if let Some(slot) = place.sessions.get_mut(slot(case, at)) {
            *slot = Some(session);
        }
    }
}

/// Appends a command to the others.
fn add(commands: &mut Vec<Command<Global>>, command: Command<Global>) -> Result<(), AllocError> {
    commands.push(command)?;
    Ok(())
}

/// Takes the sessions in all places.
fn take_all(alloc: Global, place: &mut Place) -> Result<Vec<Session>, AllocError> {
    let mut sessions = Vec::with_capacity(alloc, 8)?;
    for slot in place.sessions.iter_mut() {
        if let Some(session) = slot.take() {
            sessions.push(session)?;
        }
    }
    Ok(sessions)
}

/// How many receipts the sessions have.
fn count_receipts(sessions: &[Session]) -> usize {
    let mut count = 0usize;
    for session in sessions {
        count = count.saturating_add(session.receipts.len());
    }
    count
}

/// Runs these commands in a row, the first at this turn, by these sessions. If a session is out of memory, it runs the command
/// and those after it once more.
fn run_row<R: Threads + Wait + Sync>(
    rt: &R,
    desk: &Desk,
    turn: u64,
    sessions: &mut Vec<Session>,
    commands: &[Command<Global>],
) -> Option<RunFault> {
    if sessions.is_empty() {
        return None;
    }
    let before = count_receipts(sessions.as_slice());
    let fault = desk
        .run_turns(rt, 0, turn, sessions.as_mut_slice(), commands)
        .err()?;
    if !matches!(fault, RunFault::OutOfMemory) || sessions.is_empty() {
        return Some(fault);
    }
    let ran = count_receipts(sessions.as_slice()).saturating_sub(before);
    let rest = commands.get(ran..).unwrap_or(&[]);
    desk.run_turns(
        rt,
        0,
        turn.saturating_add(ran as u64),
        sessions.as_mut_slice(),
        rest,
    )
    .err()
}

/// Runs the commands of a text in a row, by the sessions in all places, and puts them back. Says why one did not run.
pub(crate) fn run_in_turn<R: Threads + Wait + Sync>(
    rt: &R,
    alloc: Global,
    place: &mut Place,
    case: &Case,
    said: &mut String,
) -> Result<(), CaseFault> {
    let text = rest(alloc, case, 2)?;
    let Ok(lines) = str::from_utf8(text.as_slice()) else {
        return Err(CaseFault::Malformed);
    };
    let mut commands = Vec::new(alloc);
    for line in lines.split(';') {
        add(&mut commands, command(alloc, line.as_bytes())?)?;
    }
    let mut sessions = take_all(alloc, place)?;
    let Some(desk) = place.desk.as_ref() else {
        return Err(CaseFault::Malformed);
    };
    let fault = run_row(
        rt,
        desk,
        case.number(1)?,
        &mut sessions,
        commands.as_slice(),
    );
    for (slot, session) in place.sessions.iter_mut().zip(sessions) {
        *slot = Some(session);
    }
    match fault {
        Some(fault) => put_run_fault(said, fault),
        None => Ok(()),
    }
}

/// Closes the desk with the sessions in these places, and puts them back. Says how many entries the log has, or why the desk
/// stays open.
pub(crate) fn close<R: Wait>(
    rt: &R,
    alloc: Global,
    place: &mut Place,
    case: &Case,
    said: &mut String,
) -> Result<(), CaseFault> {
    let handed = handed(alloc, place, case, 1)?;
    let Some(desk) = place.desk.take() else {
        return Err(CaseFault::Malformed);
    };
    let outcome = match desk.close(rt, handed) {
        Err((desk, sessions, CloseFault::OutOfMemory)) => desk.close(rt, sessions),
        outcome => outcome,
    };
    match outcome {
        Ok(closed) => {
            let Closed {
                engine,
                log,
                sessions,
            } = closed;
            put_back(place, case, 1, sessions);
            place.engine = Some(engine);
            write!(said, "{} entries", log.len())?;
            place.log = log;
            Ok(())
        }
        Err((desk, sessions, fault)) => {
            place.desk = Some(desk);
            put_back(place, case, 1, sessions);
            put_close_fault(said, fault)
        }
    }
}

/// Audits the log of the closed desk, with the number of its sessions, and with the receipts of the sessions in these places.
pub(crate) fn audit_log(
    alloc: Global,
    place: &mut Place,
    case: &Case,
    said: &mut String,
) -> Result<(), CaseFault> {
    let n = case.number(1)?.min(255) as u8;
    let handed = handed(alloc, place, case, 2)?;
    let outcome = match audit(alloc, n, place.log.as_slice(), handed.as_slice()) {
        Err(CloseFault::OutOfMemory) => audit(alloc, n, place.log.as_slice(), handed.as_slice()),
        outcome => outcome,
    };
    put_back(place, case, 2, handed);
    match outcome {
        Ok(()) => Ok(()),
        Err(fault) => put_close_fault(said, fault),
    }
}

/// Says the receipts, each with its command and its reply.
pub(crate) fn put_receipts(
    alloc: Global,
    said: &mut String,
    receipts: &[Receipt],
) -> Result<(), CaseFault> {
    for receipt in receipts {
        put_command(alloc, said, &receipt.command)?;
        put_reply_of(alloc, said, receipt.number, &receipt.reply)?;
    }
    Ok(())
}

/// Says the entries of the log, each with its session, its command and its reply.
pub(crate) fn put_log(alloc: Global, said: &mut String, log: &[Entry]) -> Result<(), CaseFault> {
    let mut number = 0u64;
    for entry in log {
        write!(said, "by {} ", entry.session)?;
        put_command(alloc, said, &entry.command)?;
        put_reply_of(alloc, said, number, &entry.reply)?;
        number = number.saturating_add(1);
    }
    Ok(())
}
