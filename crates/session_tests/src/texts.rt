//! Replies and faults in the words of the case files.

use sessions::{CloseFault, RunFault};
use std::alloc::Global;
use test_support::{CaseFault, push_escaped};
use trace_lines::put_reply;
use undo_journal::{Command, Reply};

/// Says bytes whose line feeds are semicolons.
pub(crate) fn put_lines(said: &mut String, bytes: &[u8]) -> Result<(), CaseFault> {
    for byte in bytes {
        match byte {
            b'\n' => said.push(';')?,
            byte => push_escaped(said, &[*byte])?,
        }
    }
    Ok(())
}

/// Says a reply as the output for the line with this number.
pub(crate) fn put_reply_of(
    alloc: Global,
    said: &mut String,
    number: u64,
    reply: &Reply<Global>,
) -> Result<(), CaseFault> {
    let mut bytes = Vec::new(alloc);
    put_reply(alloc, &mut bytes, number, reply)?;
    put_lines(said, bytes.as_slice())
}

/// Says a command as its line.
pub(crate) fn put_command(
    alloc: Global,
    said: &mut String,
    command: &Command<Global>,
) -> Result<(), CaseFault> {
    let text = command.text(alloc)?;
    put_lines(said, text.as_slice())?;
    said.push_str(": ")?;
    Ok(())
}

/// Says why a session ran nothing.
pub(crate) fn put_run_fault(said: &mut String, fault: RunFault) -> Result<(), CaseFault> {
    match fault {
        RunFault::TurnPassed(len) => write!(said, "passed {len}")?,
        RunFault::Halted => said.push_str("halted")?,
        RunFault::OutOfMemory => return Err(CaseFault::OutOfMemory),
    }
    Ok(())
}

/// Says why receipts are not the log.
pub(crate) fn put_close_fault(said: &mut String, fault: CloseFault) -> Result<(), CaseFault> {
    match fault {
        CloseFault::Stranger(session) => write!(said, "stranger {session}")?,
        CloseFault::Missing(number) => write!(said, "missing {number}")?,
        CloseFault::Mismatch(number) => write!(said, "differs {number}")?,
        CloseFault::OutOfMemory => return Err(CaseFault::OutOfMemory),
    }
    Ok(())
}
