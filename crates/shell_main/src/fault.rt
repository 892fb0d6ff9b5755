//! Why a shell ends before the end of its source.

use thiserror::Error;

/// Why a shell ended before the end of its source. Except for `Write`, exactly the output for whole
/// lines was written and flushed.
#[derive(Clone, Copy, Debug, PartialEq, Eq, Error)]
pub enum ShellFault {
    /// A read failed.
    #[error("read failed")]
    Read,
    /// A write or a flush failed, or a write took no bytes. A prefix of the output may have been
    /// written.
    #[error("write failed")]
    Write,
    /// The next line has more than `TRACE_MAX` bytes, or 2^64 - 1 lines had a number.
    #[error("input too long")]
    InputTooLong,
    /// An allocation for a line, the groups and processes, or the output failed.
    #[error("out of memory")]
    OutOfMemory,
    /// A strict shell has answered a line that is not a command. Its answer is the last output.
    #[error("line is not a command")]
    NotACommand,
}
