//! The laws of the definitions that the contracts of `process_table` and `pids_charge` use. This crate has no code.
//!
//! Each function's contract is a law or a worked example, and its body is empty.
//!
//! - `tables`: processes by row, a table of charges, lists of lost processes, and event totals.
//! - `faults`: which refusal a fault stands for, and what a call does of a command.
//! - `runs`: how a settlement is cut into runs, and what its parts leave.
//!
//! No program uses this crate.
#![tactic(auto)]

pub mod faults;
pub mod runs;
pub mod tables;
