//! Receipts that are altered, to see what an audit finds.

use crate::place::{command, rest};
use group_path::{GroupPath, PathFault};
use sessions::{Receipt, Session};
use std::alloc::Global;
use test_support::{Case, CaseFault};
use undo_journal::{Bytes, Command, Reply};

/// A receipt with this number, command and reply.
fn receipt(
    alloc: Global,
    number: u64,
    command: Command<Global>,
    reply: &[u8],
) -> Result<Receipt, CaseFault> {
    match reply {
        b"done" => Ok(Receipt {
            number,
            command,
            reply: Reply::Done,
        }),
        [b't', b'e', b'x', b't', b'=', text @ ..] => {
            let text = Vec::from_slice(alloc, text)?;
            Ok(Receipt {
                number,
                command,
                reply: Reply::Text(Bytes::of(text)),
            })
        }
        [b'u', b'n', b'm', b'a', b'd', b'e', b'=', path @ ..] => {
            match GroupPath::read(alloc, path) {
                Ok(path) => Ok(Receipt {
                    number,
                    command,
                    reply: Reply::Undone(Command::MakeGroup(path)),
                }),
                Err(PathFault::OutOfMemory) => Err(CaseFault::OutOfMemory),
                Err(_) => Err(CaseFault::Malformed),
            }
        }
        _ => Err(CaseFault::Malformed),
    }
}

/// `forge SESSION NUMBER REPLY LINE`: appends a receipt to those of the session. The reply is `done`, `text=` with the text
/// of a file, or `unmade=` with the path of a group whose making was undone.
pub(crate) fn forge(alloc: Global, session: &mut Session, case: &Case) -> Result<(), CaseFault> {
    let number = case.number(2)?;
    let line = rest(alloc, case, 4)?;
    let command = command(alloc, line.as_slice())?;
    let receipt = receipt(alloc, number, command, case.word(3))?;
    match session.receipts.push(receipt) {
        Ok(()) => Ok(()),
        Err(_) => Err(CaseFault::OutOfMemory),
    }
}
