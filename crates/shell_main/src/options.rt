//! How a shell answers.

/// How a shell answers, whatever its source and its sink.
#[derive(Clone, Copy, Debug, PartialEq, Eq)]
pub struct Options {
    /// Whether it stops after the first line that is not a command.
    pub is_strict: bool,
    /// Whether commands can be undone. A shell without a history forgets each command after its line: each `undo` has
    /// nothing to undo, and no record takes memory.
    pub keeps_history: bool,
}
