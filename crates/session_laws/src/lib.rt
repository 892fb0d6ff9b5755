//! The laws of sessions and of replays: what their definitions amount to.
//!
//! Each function is proof only: its contract says what holds for definitions that the contracts of
//! `sessions` and `replay_main` cite, for every value or for a worked one. The definitions are in
//! the `specs/` of these two crates and in `flat_model`.
//!
//! - `desks`: what a call leaves of its session and behind the lock, which turns have passed, and
//!   which fault of an audit is the first.
//! - `rows`: which session runs which command of a row.
//! - `replays`: what a replay leaves if its devices report their bytes, what the program does for
//!   its command line, and its statuses.
//! - `replays::scripts`: what is at the numbered lines of a trace, and the output of several
//!   workers.
//!
//! The laws are in a crate of their own, so that an edit of the code does not prove them again, and
//! no crate of code waits for them.
#![tactic(auto)]

pub mod desks;
pub mod replays;
pub mod rows;
