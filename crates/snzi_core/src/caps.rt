//! The caps on a hand and on main.

/// The most tokens of one hand at one node.
pub const TOKEN_CAP: u64 = 1 << 40;

/// The most helpers that may be out at once.
pub const HELPER_CAP: u64 = 65535;
