//! The meaning of Makhloeum: the definitions that the contracts of all other crates use.
//!
//! A reader who knows the kernel's admin-guide, "Control Group v2", can read `specs/` from `Path` to `Replies` and check it
//! against the guide. None of it depends on a type of the program. A path is a list of names. A state is two finite maps:
//! groups to attributes, and processes to the groups that they belong to. A command is a list of refusals in order, and the
//! state that it leaves.
//!
//! - `Path`, `PathText`: paths, their texts, and the first fault of a text that is not a path.
//! - `State`, `Counts`: groups, limits, event totals, peaks, homes; `pids.current`, `populated`, descendants, members.
//! - `File`, `Command`, `Step`: the interface files, the commands, what refuses them, and the state that they leave.
//! - `Inverse`, `Machine`: the records that undo commands; the machine with its past, and undo.
//! - `Values`, `FileText`, `CommandText`, `Trace`, `Replies`: every byte that is read or written, up to `answers`, the
//!   output for a trace.
//! - `Log`, `Audit`: the log of several sessions; receipts that are its entries, each once, and the first fault if they are
//!   not.
//! - `WellFormed`, `Limiting`, `EventTotals`, `RaisedPeaks`: what holds in every state that commands reach, what the limits
//!   guarantee, how refused forks are counted, and how peaks change.
//!
//! Each bound is defined once: the names in a path and the bytes of a name and of a path in `PathText`, pids and limits in
//! `Values`, a line and a trace in `Trace`. The number of slots is a parameter: there may be `slots` groups besides the
//! root.
//!
//! This crate has only the definitions in `specs/`, and in `proofs/` the lemmas that the proofs of other crates cite. The
//! laws of the definitions, and examples computed from them, are in `flat_model_laws`. That crate is proved beside the
//! crates above this one, which don't wait for it. A wrong edit of a definition may pass this crate; `flat_model_laws`
//! refuses it.
//!
//! Not covered here: memory, time, threads and fairness.
#![tactic(auto)]
