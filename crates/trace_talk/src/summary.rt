//! The two counts of the lines answered.

/// The two counts of the lines that were answered.
#[derive(Clone, Copy, Debug, PartialEq, Eq)]
pub struct Summary {
    /// How many lines have a number.
    pub commands: u64,
    /// How many of these were answered `refused`.
    pub refused: u64,
}
