//! The laws of the definitions between the model and an engine. Each function is proof only: its contract is a law.
//!
//! - `files`: the files of a group, the readings of values, and the results of `render` and `render_home`, by the
//!   definitions of `interface_files` (`specs/FileMeaning.antt`, `specs/Shown.antt`).
//! - `meanings`: the commands, refusals, replies and records of `undo_journal`, by their lines, words and output
//!   (`specs/CommandMeaning.antt` there).
//! - `histories`: what is kept of an engine's past, what an undo restores, and what allocates (`specs/Answer.antt`,
//!   `specs/Headline.antt`, `specs/History.antt` there).
//! - `lines`: the lines of a trace and their output, by the definitions of `trace_lines` (`specs/LineMeaning.antt`,
//!   `specs/Action.antt`, `specs/Cut.antt`, `specs/Replied.antt`).
//!
//! No program uses this crate.
#![tactic(auto)]

pub mod files;
pub mod histories;
pub mod lines;
pub mod meanings;
