//! The size of a meter's board.

use pids_charge::{LEAVES, SLOTS};

/// The slots of the board.
pub(crate) const GROUPS: usize = SLOTS;

/// The nodes of a slot.
pub(crate) const NODES: usize = 15;

/// The leaves of a slot, and as many stripes.
pub(crate) const ROW: usize = LEAVES;
