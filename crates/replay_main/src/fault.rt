//! Why a replay failed.

use thiserror::Error;

/// Why a replay failed.
#[derive(Clone, Copy, Debug, PartialEq, Eq, Error)]
pub enum ReplayFault {
    /// A read failed. Nothing was written.
    #[error("read failed")]
    Read,
    /// A write or a flush failed, or a write took no bytes. The first bytes of the answers may have
    /// been written.
    #[error("write failed")]
    Write,
    /// The trace has more than `TRACE_MAX` bytes. Nothing was written.
    #[error("input too long")]
    InputTooLong,
    /// Out of memory for the trace, the groups and processes, or the answers. Nothing was written.
    #[error("out of memory")]
    OutOfMemory,
    /// The desk's log did not match the sessions' receipts, or the trace's commands and the sessions
    /// whose turns they were. Nothing was written. Only two or more workers have a desk.
    #[error("close failed")]
    Close,
}
