//! A shell over the trace language: all lines that one read brought are answered before the next bytes are read.
//!
//! `shell_by` reads lines from a `Source` to its end. It answers the lines of each read, writes their output to a `Sink` and
//! flushes it before it reads on. So a program in any language can send a line, look at the output, and send the next.
//!
//! - The output is that of `replay_main`, byte for byte: `answers` of `flat_model`. So are the two counts of the `Summary`.
//! - Whenever bytes are read, exactly the output for the whole lines read before was written and flushed (`NothingOwed`). The
//!   private `next_chunk` requires it; no public clause says it.
//! - A fault of a shell says what failed. Before each fault but `Write`, exactly the output for whole lines was written;
//!   before `Write`, a prefix of the output. A line of more than `TRACE_MAX` bytes is too long. Out of memory ends the
//!   shell.
//! - A strict shell also stops after the first line that is not a command; its answer is the last output.
//! - Without a history each `undo` has nothing to undo, and any other line is answered as if the undos before it were not
//!   there.
//! - `run_program` does what the program's arguments request: a shell, or the help text or the version. `exit_status` is the
//!   program's exit status. The text of a fault is its message.
//! - `PipeSink` writes to standard output, and knows a closed pipe from other faults. No clause says that.
//! - It keeps no log and no earlier lines: only the engine with its journal, the bytes of the last read and of the line that
//!   has not ended, and output that is not yet written. Nothing is promised about time, or about when a device responds.
//!
//! `specs/Shelled.antt` says what a shell leaves, `specs/Devices.antt` what a contract sees of source and sink,
//! `specs/Forgetful.antt` what it answers without a history, `specs/WholeLines.antt` what whole lines are,
//! `specs/Program.antt` what the program leaves, and `specs/ShellArguments.antt` what a command line requests. The laws of these
//! definitions are in `shell_laws`.
#![tactic(auto)]

mod answering;
mod arguments;
mod fault;
mod options;
mod pipe;
mod program;
mod reading;
mod serving;

pub use arguments::{bad_word, input_file};
pub use fault::ShellFault;
pub use options::Options;
pub use pipe::PipeSink;
pub use program::{ProgramFault, exit_status, run_program, with_closed_pipe};
pub use serving::shell_by;
