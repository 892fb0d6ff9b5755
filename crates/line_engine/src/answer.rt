//! The result of answering a line, and the codes of refusals and faults.

ghost use Rattle.std.specs.Prelude.{◌≡◌, IfSome};
ghost use Rattle.undo_journal.specs.CommandMeaning.{reply_of, refusal_of};
ghost use Rattle.trace_lines.specs.LineMeaning.{text_fault_of};
ghost use Rattle.line_engine.specs.FaultCodes.{reply_code, refusal_code, fault_code};

use std::alloc::Global;
use trace_lines::TextFault;
use undo_journal::{Refusal, Reply};

/// The result of answering a line.
#[derive(Clone, Copy, Debug, PartialEq, Eq)]
pub enum Answer {
    /// The line has no words or is a comment, and has no output.
    Skipped,
    /// The line has output.
    Answered {
        /// How many bytes of the buffer are the output.
        len: usize,
        /// 0 if the command was done, else the code of the refusal or fault.
        code: u32,
    },
    /// The buffer is too small. Nothing has changed.
    TooSmall {
        /// The length of the output.
        needed: usize,
    },
    /// An allocation failed. Nothing has changed.
    OutOfMemory,
}

fn code_of_refusal(refusal: &Refusal<Global>) -> u32
    ensures { result ≡ refusal_code (refusal_of refusal.now) }
{
    match refusal {
        Refusal::Exists => 1,
        Refusal::NoGroup(_) => 2,
        Refusal::Descendants(_) => 3,
        Refusal::Depth(_) => 4,
        Refusal::NoSlot => 5,
        Refusal::RootFixed => 6,
        Refusal::HasChildren => 7,
        Refusal::HasProcesses => 8,
        Refusal::NoProcess(_) => 9,
        Refusal::PidInUse(_) => 10,
        Refusal::PidsMax(_) => 11,
        Refusal::NoFile => 12,
        Refusal::NotReadable => 13,
    }
}

/// 0 if the command was done, else the code of its refusal.
pub(crate) fn code_of_reply(reply: &Reply<Global>) -> u32
    ensures { IfSome (reply_of reply.now) (λ r. result ≡ reply_code r) }
{
    match reply {
        Reply::Refused(refusal) => code_of_refusal(refusal),
        Reply::NothingToUndo => 14,
        Reply::Done | Reply::Text(_) | Reply::Undone(_) | Reply::OutOfMemory => 0,
    }
}

/// The code of a line that is not a command.
pub(crate) fn code_of_fault(fault: TextFault) -> u32
    ensures { result ≡ fault_code (text_fault_of fault) }
{
    match fault {
        TextFault::Syntax => 32,
        TextFault::Path => 33,
        TextFault::File => 34,
        TextFault::Direction => 35,
        TextFault::Value => 36,
    }
}
