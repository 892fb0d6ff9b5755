//! Why a line of a trace is not a command.

use crate::LINE_MAX;
use thiserror::Error;

/// Why a line of a trace is not a command. (A fault of the program's own command line has another
/// type.)
#[derive(Clone, Copy, Debug, PartialEq, Eq, Error)]
pub enum TextFault {
    /// The line has more than `LINE_MAX` bytes, an unknown first word, or a wrong number of words.
    #[error("an unknown first word, a wrong number of words, or more than {LINE_MAX} bytes")]
    Syntax,
    /// A word is not a path of the grammar.
    #[error("a word is no path")]
    Path,
    /// A word is not the name of a file.
    #[error("a word is no file's name")]
    File,
    /// The file can't be written, or can't be read.
    #[error("the file is not written, or not read")]
    Direction,
    /// A value is out of range or not a number.
    #[error("a value is out of its range, or no number")]
    Value,
}

/// Why the words of a line give no command.
#[derive(Clone, Copy, PartialEq, Eq)]
pub(crate) enum Unread {
    /// The words have a fault.
    Fault(TextFault),
    /// The words are right, but the allocation of the path failed.
    OutOfMemory,
}
