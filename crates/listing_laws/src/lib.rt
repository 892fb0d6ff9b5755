//! The laws of listings, which have exactly the groups that exist, of the faults of paths, and of what the engine of the C
//! library answers. Each function is proof only: its contract is a law.
//!
//! - `listings`: the list of all groups and that of a group with those below it, by the definitions of `line_engine`
//!   (`specs/Listings.antt`).
//! - `answers`: what a line, a list and a number are answered by, in the caller's buffer or besides.
//! - `faults`: where the first fault of a text is that is not a path (`specs/PathFaults.antt`), computed.
//!
//! No program uses this crate.
#![tactic(auto)]

pub mod answers;
pub mod faults;
pub mod listings;
