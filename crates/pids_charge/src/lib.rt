//! Processes in groups, each counted at its group and at every group above it.
//!
//! - A `Charges` has the groups as a tree and the processes in a table. It starts with the root, and process 1 in it. Each
//!   group other than the root has a slot of a meter. A process is one charge at the slot of its group, and one at that of
//!   each group above it other than the root, at the leaf that the process remembers.
//! - The meter's slot of a group says how many processes are at or below it, and whether there is one. `members`
//!   and `kill` visit the processes that they list, and no others.
//! - A fork is refused if one more process would exceed the `pids.max` of a group at or above the parent's. The refusal
//!   names the nearest such group and raises event totals: the local total of that group, and the total of it and of each
//!   group above it other than the root. Moves are never refused by a limit, and a limit may be set below what there is.
//! - The peak of a group other than the root is the most processes that were at or below it at once. A fork and a move raise
//!   the peaks along the new path of the process, once it is there, and return the old peaks. A refused fork raises no peak.
//!   Only `set_peaks`, `unfork` and `unmove` lower one.
//! - Refusals come in a fixed order, out of memory last, and change nothing but those totals.
//! - Each command has an undo that tests no limit: `put_group_back` for a removal, `put_process_back` for an exit,
//!   `put_processes_back` for a kill, `unfork` for a fork, `uncount` for a refused one, and `unmove` for a move. `unfork` and `unmove` restore the peaks that the
//!   fork or the move raised. A limit is undone by setting the old one. None of them raises a peak.
//! - For each command one call only decides: `refuses_mkdir`, `refuses_rmdir`, `refuses_fork`, `refuses_exit`,
//!   `refuses_move`, `refuses_limit` and `refuses_kill` return its first refusal, if there is one, and allocate nothing.
//!   `refuses_pids` is the part of `refuses_fork` that looks at no limit. `make_group`, `take_group` and `take_processes` only
//!   do what was decided. They are for a caller that allocates something of its own in between. `fork_or_count`,
//!   `take_process`, `move_process` and `replace_limit` decide and act in one look-up, and return what a caller records.
//! - A call that can only run out of memory returns `AllocError`. What decides returns a `ChargeRefusal`, which is never out of
//!   memory. `src/specified.rt` has the calls that only the specification names: a `ChargeFault` is a refusal or out of memory.
//! - `take_process`, `unfork`, `set_peaks`, `count_fork`, `uncount`, `take_group`, `replace_limit`, the readers and the calls that
//!   only decide allocate nothing. `new` allocates the tables of free slots and of hints. Rows, and the paths that they
//!   keep, are allocated as groups are made. The list of old peaks of a fork or a move takes memory only if it has more than
//!   `INLINE_PEAKS`, or one of 2^32 or more.
//! - The tree has the names of the groups, and a row for each has its attributes and how many groups are below it. A process
//!   knows the row of its group. A walk up goes from the row of a group to that of its parent, so a fork, a refused fork and an
//!   exit cost O(depth) steps and compare no names. So do the limits that a new group may meet. A kill looks at each row, and
//!   goes up from each that has processes, to its own row or the root's. A process is found in constant time. A path has at
//!   most 32 names.
//! - Who is given a path, as a move is, finds its row by a hint: 2,048 hints are rows, by a hash of a path's text, and a row
//!   keeps the path of its group. If the hint's row keeps another path, or none, one descent of the tree finds the row by
//!   O(depth · log children) comparisons. So groups whose hashes collide cost a descent each, and no more. Paths of up to 22
//!   bytes are kept in their rows, longer ones in an allocation.
//! - The processes of a group share the text of a long path. A child takes it from its parent; a process that is moved, put
//!   back or copied takes it from one that is in the group, if there is one, and else gets a copy.
//! - `take_processes` and `put_processes_back` settle their charges by a `Settler`: `Alone` settles on the calling thread and
//!   needs no runtime, `with_threads` starts threads, as `kill` and `place_all` do.
//! - `child_names` returns the names of a group's children, in order.
//! - Any meter that meets the law of `Meter` will do. `PlainMeter` keeps plain numbers, for one thread.
//! - A kill and its undo pass all their charges to a meter at once, which settles them in 2 to 8 parts (`part_count`,
//!   `last_run`). The number of parts doesn't change the result.
//! - `copy_plain` copies the groups and processes into another allocator, over a `PlainMeter`.
//!
//! Not promised: which slot a group gets, and in which stripe of a meter an amount is stored.
//!
//! `specs/Recount.antt` says how meter, tree and table agree, `specs/GroupRows.antt` how tree, rows and kept paths do. `specs/Answers.antt` says what a call that is a command
//! returns and leaves. `specs/Events.antt` defines what a limit refuses and what is counted, `specs/Peaks.antt` to what
//! peaks rise, and `specs/Parts.antt` what a settlement leaves in so many parts.
#![tactic(auto)]

mod above;
mod charges;
mod children;
mod copy;
mod exit;
mod fault;
mod fork;
mod gate;
mod group;
mod groups;
mod hierarchy;
mod hints;
mod inside;
mod kill;
mod limit;
mod lost;
mod meter;
mod migrate;
mod mkdir;
mod notes;
mod parts;
mod peaks;
mod pid;
mod place;
mod plain;
mod readers;
mod rmdir;
mod row;
mod rows;
mod settler;
mod specified;
mod walk;

pub use charges::Charges;
pub use fault::{ChargeFault, ChargeRefusal};
pub use fork::ForkOutcome;
pub use gate::{Gate, OpenGate};
pub use lost::{Lost, LostList};
pub use meter::{HELD_MAX, Meter};
pub use migrate::{MoveOutcome, Shifted};
pub use parts::{last_run, part_count};
pub use peaks::{INLINE_PEAKS, Peaks};
pub use pid::{PID_MAX, Pid};
pub use plain::{LEAVES, PlainMeter, SLOTS};
pub use settler::{Alone, Settler, WithThreads, with_threads};
pub use snzi_tokens::Token;
