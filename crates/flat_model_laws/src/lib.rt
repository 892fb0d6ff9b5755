//! The laws of the definitions in `flat_model`, and examples computed from them.
//!
//! Each function is proof only: its contract is a law, which a check of this crate proves. A law
//! holds for every state, path, text, log and number of slots unless it says otherwise.
//!
//! - `paths`, `texts`: paths are ordered and can be read back; so can each word, line and trace.
//! - `states`, `refusals`: what commands keep, exactly which commands are accepted, and exactly
//!   what refuses the others.
//! - `peaks`: what raises the peak of a group, and that it is no lower than its count.
//! - `records`, `machine`: a record undoes its command; undo, and what holds for every machine that
//!   commands reach.
//! - `logs`: where a log ends, and that it is legal, entry by entry.
//! - `audits`: receipts are a log's entries, each once, exactly if they have no first fault.
//! - `examples`: whole traces with their output, and texts, values, files, lines, replies, logs and audits.
//!
//! No program uses this crate.
#![tactic(auto)]

pub mod audits;
pub mod examples;
pub mod logs;
pub mod machine;
pub mod paths;
pub mod peaks;
pub mod records;
pub mod refusals;
pub mod states;
pub mod texts;
