//! What a Rattle program needs to keep a hierarchy of process groups. Name this one crate in the program's line of
//! `crates.txt`.
//!
//! - An `Engine` answers a `Command` with a `Reply`, and can undo the newest command. It counts by a meter: a `PlainMeter`
//!   of plain numbers, or a `BoardMeter` of atomic words. Both count alike.
//! - A command is made from a `GroupPath` and a `Pid`, or read from a line of a trace by `parse_line`. `put_reply` writes
//!   the output. `Engine::rehearse` returns the replies that a list of commands would get.
//! - `engine.charges()` lends the groups and processes for reading. `Engine::current`, `populated` and `render` return
//!   counts and texts of files.
//! - A `Desk` has up to eight `Session`s, each in a thread of its own. `Desk::close` returns the engine and a log, if the
//!   receipts of the sessions are the log's entries. `audit` tests the same for a stored log.
//! - `replay` answers a whole trace from a `Source` into a `Sink`. `rehearse_trace` does the same on a copy of an engine.
//! - Every refusal says why, and changes nothing but the event totals of a fork that `pids.max` refuses. A kill and its undo
//!   may wait for threads; `apply_alone` and `undo_alone` wait for nobody.
//!
//! Every contract is that of the crate that an item comes from; this crate adds none. `specs/` passes on the definitions
//! that those contracts cite, in a module for each subject: `Model` has the definitions, and the others relate the program
//! to them. Code that passes a session to a thread cites `session_send` of `proofs/`, as `example_desk` does. What the lower
//! layers offer one another (trees, slots, boards, hands, gates) is left out.
#![tactic(auto)]

pub use board_meter::BoardMeter;
pub use group_path::{GroupPath, PathFault};
pub use group_tree::{Attr, Limit, LimitFile, Limits};
pub use interface_files::Written;
pub use pids_charge::{Meter, PID_MAX, Pid, PlainMeter};
pub use replay_main::{
    DeviceFault, MemorySink, MemorySource, ReplayFault, Sink, Source, StreamSink, StreamSource,
    Summary, TRACE_MAX, rehearse_trace, replay,
};
pub use sessions::{
    CloseFault, Closed, Desk, DeskEngine, Entry, Receipt, RunFault, Session, audit,
};
pub use trace_lines::{LINE_MAX, Line, TextFault, is_refused, parse_line, put_fault, put_reply};
pub use undo_journal::{Bytes, Command, Engine, File, Refusal, Reply, ShowFault};
