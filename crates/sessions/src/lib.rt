//! Sessions at one desk: they share one hierarchy and one log, and each keeps a receipt of each of
//! its commands.
//!
//! A `Desk` keeps an engine and the log of all commands that ran on it, behind one lock. Up to
//! eight sessions run commands at it; each may have its own thread. Each command is one step of the
//! machine of `flat_model`. The log gives the order of the commands.
//!
//! - `run` runs a command as soon as no other command runs. `run_at` waits for its turn, which
//!   comes when the log has a given number of entries. The log entry and the session's receipt have
//!   the same number.
//! - `run_turns` runs commands in a row, each at its turn by the session whose turn it is. It waits
//!   and locks once.
//! - A refusal by the hierarchy is a reply, and is logged like any other. A `RunFault` is not a
//!   reply: nothing was logged or changed. Entry and receipt are reserved before the engine runs
//!   the command, so running out of memory changes nothing.
//! - `undo` undoes the newest recorded command, whichever session issued it.
//! - `halt` stops all sessions. `close` ends the desk if the receipts passed to it are the log's
//!   entries, each once. Then the log is legal (the machine, run over its commands, gives its
//!   replies) and the engine is in the state at the log's end. Otherwise `close` returns desk and
//!   sessions unchanged, with the first fault.
//! - `audit` applies the same test to a given log.
//! - Dropping a session drops its receipts. If the log has an entry of that session, every `close`
//!   of the desk then returns `Missing`. A session that waits for a turn waits until the log is
//!   long enough, whichever session extends it. If no session extends it, `halt` ends the wait.
//!
//! No public clause can name the value behind the lock. The private calls of `DeskState` and `Book`,
//! which borrow it, say how each result leaves engine, log and halt: either the log has one more
//! entry, of this session and with its receipt, or nothing has changed. No clause says that each
//! public call passes the locked value to them, and unlocks it as they left it.
//!
//! Not promised: that a turn comes, that every session gets one, and how long a wait takes. The log
//! is the only order between sessions. Tests show that every session returns `Halted` once its desk
//! was halted or closed.
//!
//! `flat_model` defines logs, receipts and their faults (`specs/Log.antt`, `specs/Audit.antt`).
//! `specs/Receipts.antt` says how a call leaves its session, `specs/Turns.antt` how a row of commands
//! leaves all sessions, and `specs/Served.antt` how a call leaves the value behind the lock.
//! `specs/Waits.antt` defines which awaited turns have come. `session_laws` has the laws that follow
//! from these definitions.
#![tactic(auto)]

mod auditing;
mod book;
mod close;
mod desk;
mod entry;
mod fault;
mod session;
mod shared;
mod state;
mod step;
mod turns;
mod waits;

pub use auditing::audit;
pub use book::DeskEngine;
pub use close::Closed;
pub use desk::Desk;
pub use entry::{Entry, Receipt};
pub use fault::{CloseFault, RunFault};
pub use session::Session;
