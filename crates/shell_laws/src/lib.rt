//! The laws of the shell: what its definitions amount to.
//!
//! Each function is proof only: its contract says what holds for the definitions that the contracts
//! of `shell_main` and `trace_talk` cite, for every value or for a worked one.
//!
//! - `shells`: a shell writes what a replay writes, or a prefix of it after a fault; what is
//!   flushed at a failed read; that a strict shell is a shell.
//! - `forgetful`: what a shell without a history answers, compared with one that has one.
//! - `talks`: what one line of a talk leaves, and what a talk counts.
//! - `words`: what a command line requests, and the statuses.
//! - `ends`: what the program leaves for such a line, and when a closed pipe is reported.
#![tactic(auto)]

pub mod ends;
pub mod forgetful;
pub mod shells;
pub mod talks;
pub mod words;
