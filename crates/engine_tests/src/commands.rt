//! Lines as commands, and replies as text.

use std::alloc::{AllocError, Global};
use test_support::{Case, CaseFault, Outcome, push_escaped};
use trace_lines::{Line, parse_line, put_reply};
use undo_journal::{Command, Reply};

/// The words of the call from this one on, with a blank between two.
pub(crate) fn line_of(alloc: Global, case: &Case, from: usize) -> Result<Vec<u8>, AllocError> {
    let mut line = Vec::new(alloc);
    for at in from..case.count() {
        if at > from {
            line.push(b' ')?;
        }
        line.extend_from_slice(case.word(at))?;
    }
    Ok(line)
}

/// The line with a number in place of `#`.
pub(crate) fn with_number(alloc: Global, line: &[u8], number: u64) -> Result<Vec<u8>, AllocError> {
    let digits = format!(in alloc; "{number}")?;
    let mut text = Vec::new(alloc);
    for byte in line {
        match *byte {
            b'#' => text.extend_from_slice(digits.as_bytes())?,
            byte => text.push(byte)?,
        }
    }
    Ok(text)
}

/// The command of a line.
pub(crate) fn command(alloc: Global, line: &[u8]) -> Result<Command<Global>, CaseFault> {
    match parse_line(alloc, line)? {
        Line::Run(command) => Ok(command),
        _ => Err(CaseFault::Malformed),
    }
}

/// The command of the words of the call from this one on.
pub(crate) fn command_of(
    alloc: Global,
    case: &Case,
    from: usize,
) -> Result<Command<Global>, CaseFault> {
    let line = line_of(alloc, case, from)?;
    command(alloc, line.as_slice())
}

/// Appends a reply as in a trace, without its number.
pub(crate) fn push_reply(
    alloc: Global,
    said: &mut String,
    reply: &Reply<Global>,
) -> Result<Outcome, AllocError> {
    if let Reply::OutOfMemory = reply {
        return Ok(Outcome::RefusedAndKept);
    }
    let mut bytes = Vec::new(alloc);
    put_reply(alloc, &mut bytes, 1, reply)?;
    match bytes.as_slice() {
        [b'1', b' ', text @ .., b'\n'] => push_escaped(said, text)?,
        text => push_escaped(said, text)?,
    }
    Ok(Outcome::Answered)
}
