//! The engine: commands, their replies, and a journal that undoes commands.
//!
//! An `Engine` is the machine of `flat_model`: the current state, and for each recorded command, newest first, the
//! command and the state before it. `apply` gives the machine's reply to a command and makes the machine's step. A
//! recorded command followed by `undo` restores the engine. Undoing everything leaves a new engine: the root, with
//! process 1 in it. All this holds after any commands and undos, over every `Meter`. `forget` is the exception: undoing
//! everything then leaves the state at which it was called. So contracts also see how many recorded commands an engine
//! has forgotten.
//!
//! - The journal records each accepted command that isn't a read or an undo, also one that changes nothing, as a write of
//!   the present limit. It also records a fork that a `pids.max` refused, because that raises event totals. It records no
//!   other refused command.
//! - `undo` undoes the newest recorded command, whichever session issued it, and checks nothing.
//! - A refusal names its cause and changes nothing but those totals. Out of memory comes last and changes nothing: a
//!   command allocates its record after all checks and before any change. A fork alone allocates it before it tests
//!   `pids.max`, since a refused fork is recorded too.
//! - The journal keeps each command with a small record, and no states. It has no bound of its own, and is not stored
//!   on disk.
//! - `command_at` reads the recorded commands, oldest first.
//! - `undo_all` undoes everything, newest first, or as much as memory allows, and returns how many commands it undid.
//! - A kill and its undo pass all their charges to the meter at once, and may wait for the threads that settle parts of
//!   them. No other command waits. The session's number `who` selects where its charges are stored in the meter.
//! - `apply_alone` and `undo_alone` run on the calling thread. They need no runtime and never wait.
//! - `accepts` says whether a command would be accepted. It changes and allocates nothing.
//! - `apply_gated` is `apply` for tests: each part of a settlement first calls the caller's hook. No clause is about
//!   the hook.
//! - `is` compares commands, refusals and replies over different allocators. It is true exactly if they mean the same.
//! - Groups, processes and counts are those of `Charges`. The number of groups other than the root is at most the
//!   number of the meter's slots.
//! - Undoing a removal restores the group with its limits and event totals. Only undoing a removal, an exit, a move or
//!   a kill allocates. If that runs out of memory, state and journal are unchanged.
//! - `copy` copies an engine with its journal into another allocator, over plain numbers.
//! - `rehearse` returns the replies that a list of commands would get, undos included. It runs them on a copy of the
//!   engine in the caller's arena, and only reads the engine.
//!
//! Each command has its own file, with its refusals, its change, its record and its undo. `specs/Timeline.antt` says what
//! contracts see of an engine. `specs/CommandMeaning.antt` says what commands, replies and records mean.
//! `specs/Answer.antt` says that a reply is the machine's. `specs/Headline.antt` says what each answered command promises
//! about undo and counts, and what undoing everything leaves. `specs/History.antt` says what a journal knows of the earlier
//! states. `journal_laws` states the laws that follow from these definitions.
#![tactic(auto)]

mod accepting;
mod bytes;
mod cat;
mod command;
mod engine;
mod exit;
mod faults;
mod forget;
mod fork;
mod history;
mod inverse;
mod journal;
mod kill;
mod limit;
mod locate;
mod migrate;
mod mkdir;
mod reading;
mod rehearse;
mod reply;
mod rmdir;
mod same;
mod undo;

pub use bytes::Bytes;
pub use command::Command;
pub use engine::Engine;
pub use interface_files::{File, ShowFault};
pub use inverse::Inverse;
pub use pids_charge::{PID_MAX, Pid};
pub use reply::{Refusal, Reply};
