//! The meaning of a line of a trace.

ghost use Rattle.std.specs.Prelude.{◌≡◌};
ghost use Rattle.flat_model.specs.Trace.{is_comment, read_line};
ghost use Rattle.trace_lines.specs.LineMeaning.{Says};

use crate::TextFault;
use crate::commands::read_command;
use crate::fault::Unread;
use crate::words::Words;
use std::alloc::{AllocError, Global};
use undo_journal::Command;

/// The most bytes of a line with a command.
pub const LINE_MAX: usize = 8192;

/// The meaning of a line of a trace.
#[derive(Drop)]
pub enum Line {
    /// Nothing: the line has no words, or its first word begins with `#`. It has no number.
    Skip,
    /// A command.
    Run(Command<Global>),
    /// The line is refused.
    Fault(TextFault),
}

fn is_comment(word: &[u8]) -> bool
    ensures { result ≡ is_comment word.now }
{
    matches!(word, [b'#', ..])
}

/// Reads one line. Linear in its bytes.
///
/// Only the path of a command is allocated, and only if the number of words is right. The path of a
/// `write` or a `cat` is read after the other words, so a fault of one of these is returned even if
/// the path's allocation fails.
///
/// # Errors
///
/// `AllocError` if the allocation of the path fails, and the line is a command with a path.
pub fn parse_line(alloc: Global, bytes: &[u8]) -> Result<Line, AllocError>
    ensures { Says result (read_line bytes.now) }
{
    let mut words = Words::of(bytes);
    let Some(first) = words.next() else {
        return Ok(Line::Skip);
    };
    if is_comment(first) {
        return Ok(Line::Skip);
    }
    if bytes.len() > LINE_MAX {
        return Ok(Line::Fault(TextFault::Syntax));
    }
    match read_command(alloc, first, words) {
        Ok(command) => Ok(Line::Run(command)),
        Err(Unread::Fault(fault)) => Ok(Line::Fault(fault)),
        Err(Unread::OutOfMemory) => Err(AllocError),
    }
}
