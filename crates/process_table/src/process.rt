//! What the table stores for a process.

use group_path::GroupPath;
use std::alloc::Allocator;

/// A process: its group, the row of that group, and the leaf at which the process is charged.
#[derive(Drop)]
pub struct Process<A: Allocator + Clone> {
    pub home: GroupPath<A>,
    pub row: u16,
    pub leaf: u8,
}

// A process, and the index of its pid in the list of its row.
#[derive(Drop)]
pub(crate) struct Cell<A: Allocator + Clone> {
    pub(crate) process: Process<A>,
    pub(crate) place: usize,
}
