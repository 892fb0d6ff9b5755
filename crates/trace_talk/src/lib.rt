//! A talk: an engine that answers a trace line by line, on the caller's thread.
//!
//! - `Talk::put_answer` answers one line and appends the answer's bytes. Answered one after another, the lines of a trace get
//!   `answers` of `flat_model`, byte for byte.
//! - `Talk::summary` returns two counts: the lines that have a number, and those of them that were answered `refused`.
//! - `Talk::forget` drops the history: groups, processes and counts stay.
//! - A talk counts by a plain meter. It starts no thread, takes no lock and never waits. If it is out of memory it must not be
//!   used again.
//!
//! `trace_lines` defines what a line means, and the bytes of its answer. `specs/Points.antt` defines what contracts see of a
//! talk: the machine and the two counts. `proofs/PointCuts.antt` cuts a list of lines in two.
#![tactic(auto)]

mod summary;
mod talk;

pub use summary::Summary;
pub use talk::{TRACE_MAX, Talk};
