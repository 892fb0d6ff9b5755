//! From the bytes of a trace to the bytes of its answers, and the program that does it.
//!
//! `replay` reads a trace to its end from a `Source`, answers every line, writes the answers to a
//! `Sink` and flushes it. It answers nothing before the whole trace is read. It writes nothing
//! before every line is answered.
//!
//! - `trace_lines` defines what a line means, and the bytes of its answer; `trace_talk` answers line
//!   by line; `program_io` has sources, sinks and arguments. This crate re-exports their public
//!   names.
//! - The answers are `answers` of `flat_model`: those of its machine from its start, with at most
//!   1,024 groups other than the root. They don't depend on the number of workers. The same holds
//!   for the two counts of the `Summary`.
//! - One worker answers line by line, in one pass (`Talk`). Two to eight workers run three phases:
//!   lines become commands; the commands run at a desk, with one session per worker; their replies
//!   become bytes.
//! - A fault of a replay says what failed. After `Write`, a prefix of the answers was written;
//!   after any other fault, nothing was. A trace of more than `TRACE_MAX` bytes is too long.
//!   Running out of memory is not an answer: it ends the replay.
//! - `rehearse_trace` answers a trace on a copy of a fresh engine in an arena, by
//!   `Engine::rehearse`. It writes the same bytes.
//! - `run_program` does what the program's arguments ask for: a replay, a rehearsal, or the help
//!   text. `exit_status` returns the program's exit status. A fault's message is its text.
//! - Memory is proportional to the trace and its answers. Not promised: how long a replay takes,
//!   and when a device answers.
//!
//! `specs/Replayed.antt` says what a replay leaves. `specs/ReplayProgram.antt` says what the
//! program leaves, and defines its statuses. `specs/WholeInput.antt` says what a whole read leaves.
//! `specs/ReplayArguments.antt` says what a command line asks for. `session_laws`
//! states the laws that follow from these definitions.
#![tactic(auto)]

mod arguments;
mod fault;
mod input;
mod logged;
mod one_pass;
mod program;
mod reading;
mod rehearsal;
mod runs;
mod texts;
mod trace;
mod turns;

pub use arguments::{Ask, command_line};
pub use fault::ReplayFault;
pub use pids_charge::{Gate, OpenGate};
pub use program::{ProgramFault, exit_status, run_program};
pub use program_io::{
    DeviceFault, LineFault, MemorySink, MemorySource, Sink, Source, StreamSink, StreamSource,
    collect_arguments, write_whole,
};
pub use rehearsal::rehearse_trace;
pub use trace::{replay, replay_gated};
pub use trace_lines::{LINE_MAX, Line, TextFault, parse_line};
pub use trace_talk::{Summary, TRACE_MAX, Talk};
