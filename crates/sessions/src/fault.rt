//! Why a call of a session ran nothing, and why a desk was not closed.

use thiserror::Error;

/// Why a call of a session ran nothing. Nothing was logged or changed. The order of precedence is
/// `Halted`, `TurnPassed`, `OutOfMemory`.
#[derive(Clone, Copy, Debug, Drop, Error, PartialEq, Eq)]
pub enum RunFault {
    /// Out of memory.
    #[error("out of memory")]
    OutOfMemory,
    /// The log already has this many entries, more than the turn.
    #[error("turn passed")]
    TurnPassed(u64),
    /// The desk was halted or closed.
    #[error("halted")]
    Halted,
}

/// Why receipts are not the entries of a log. The order of precedence is: out of memory, the first
/// receipt in the given order that is a stranger or differs, a missing receipt.
#[derive(Clone, Copy, Debug, Drop, Error, PartialEq, Eq)]
pub enum CloseFault {
    /// A receipt of the session with this number matches no entry, or is out of place: the session
    /// doesn't exist, or no entry has the receipt's number, or an earlier receipt named that entry,
    /// or an earlier receipt in the same list has a greater number.
    #[error("a receipt is a stranger")]
    Stranger(u8),
    /// The entry with this number has no receipt. It is the first such entry.
    #[error("a receipt is missing")]
    Missing(u64),
    /// A receipt's session, command or reply differs from the entry with this number.
    #[error("a receipt differs")]
    Mismatch(u64),
    /// Out of memory during the audit.
    #[error("out of memory")]
    OutOfMemory,
}
