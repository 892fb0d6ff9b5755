//! An engine over a board, and the lines that users issue.
//!
//! | Call | Answer |
//! |---|---|
//! | `USER LINE` | the engine's reply as in a trace, without its number |
//! | `meet PARTS USER LINE` | the same, where the parts of a kill or of its undo wait for one another; then, whether they met |
//! | `undo_all` | how many commands were undone |

use crate::meeting::Meeting;
use board_meter::BoardMeter;
use pids_charge::{Gate, OpenGate};
use std::alloc::{AllocError, Global};
use std::sync::Wait;
use std::thread::Threads;
use test_support::{Case, CaseFault, Outcome, Subject, push_escaped};
use trace_lines::{Line, parse_line, put_reply};
use undo_journal::{Command, Engine};

/// An engine over a board.
#[derive(Drop)]
pub(crate) struct BoardEngine {
    engine: Engine<Global, BoardMeter>,
}

/// The words from this one on, with a blank between two.
fn line(alloc: Global, case: &Case, from: usize) -> Result<Vec<u8>, AllocError> {
    let mut line = Vec::new(alloc);
    for at in from..case.count() {
        if at > from {
            line.push(b' ')?;
        }
        line.extend_from_slice(case.word(at))?;
    }
    Ok(line)
}

/// A command, and the user who issues it.
#[derive(Drop)]
struct Issued {
    who: u8,
    command: Command<Global>,
}

/// What the words from this one on issue: the user's number, and a line.
fn read_issued(alloc: Global, case: &Case, from: usize) -> Result<Issued, CaseFault> {
    let who = case.number(from)?.min(255) as u8;
    let line = line(alloc, case, from.saturating_add(1))?;
    match parse_line(alloc, line.as_slice())? {
        Line::Run(command) => Ok(Issued { who, command }),
        _ => Err(CaseFault::Malformed),
    }
}

impl BoardEngine {
    /// A new engine.
    pub(crate) fn new(alloc: Global) -> Result<BoardEngine, AllocError> {
        let engine = Engine::new(alloc, BoardMeter::new(alloc)?)?;
        Ok(BoardEngine { engine })
    }

    /// Applies the command with this test hook.
    fn apply<R: Threads + Wait + Sync>(
        &mut self,
        rt: &R,
        alloc: Global,
        gate: &(dyn Gate + Sync),
        issued: &Issued,
        said: &mut String,
    ) -> Result<(), CaseFault> {
        let reply = self
            .engine
            .apply_gated(rt, gate, issued.who, &issued.command);
        let mut bytes = Vec::new(alloc);
        put_reply(alloc, &mut bytes, 1, &reply)?;
        match bytes.as_slice() {
            [b'1', b' ', text @ .., b'\n'] => push_escaped(said, text)?,
            text => push_escaped(said, text)?,
        }
        Ok(())
    }
}

impl Subject for BoardEngine {
    fn call<R: Threads + Wait + Sync>(
        &mut self,
        rt: &R,
        alloc: Global,
        case: &Case,
        said: &mut String,
    ) -> Result<Outcome, CaseFault> {
        match case.word(0) {
            b"undo_all" => {
                let Ok(undone) = self.engine.undo_all(rt, 1) else {
                    return Err(CaseFault::OutOfMemory);
                };
                write!(said, "{undone}")?;
            }
            b"meet" => {
                let meeting = Meeting::new(case.number(1)?.min(9) as usize);
                let issued = read_issued(alloc, case, 2)?;
                self.apply(rt, alloc, &meeting, &issued, said)?;
                said.push_str(meeting.said())?;
            }
            _ => {
                let issued = read_issued(alloc, case, 0)?;
                self.apply(rt, alloc, &OpenGate, &issued, said)?;
            }
        }
        Ok(Outcome::Answered)
    }

    fn show(&mut self, _alloc: Global, _text: &mut String) -> Result<(), AllocError> {
        Ok(())
    }
}
