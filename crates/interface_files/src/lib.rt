//! The interface files of the groups: their names, the values that can be written to them, and their texts.
//!
//! - Each file (`File`) has its row in one table. Every group has `cgroup.procs`, `cgroup.stat`,
//!   `cgroup.max.descendants` and `cgroup.max.depth`. Every group but the root has the others too. All but `cgroup.kill`
//!   can be read. `cgroup.procs` takes a pid, `cgroup.kill` takes `1`, and the three files of limits take a limit.
//! - A value is decimal digits without a leading zero. Blanks, tabs, line feeds and carriage returns at both ends are
//!   dropped. A limit may also be `max`; for the two limits on groups 2,147,483,647 means `max` too. Signs, other bases and
//!   other words are not numbers. If there are several faults, the first in the order of `ValueFault` is returned. A number
//!   is out of range however many digits it has.
//! - `show` returns the text of a file or its refusal, `render` the same with one error for both causes of a failure, and
//!   `render_home` the text of `/proc/PID/cgroup`. Every line ends with one line feed.
//!   Neither changes anything. Refusals come first, in a fixed order. Out of memory comes last, and only if an allocation
//!   failed. `refuses_show` only decides whether a file is refused, and allocates nothing.
//! - A number or a flag costs one descent of the tree, however many groups and processes there are. A home costs one
//!   look-up. `cgroup.procs` costs O(n log n) for n processes of the group. A text is built once, in one buffer.
//! - The names and the readers of values allocate nothing.
//!
//! Not promised: how often a buffer grows.
//!
//! The definitions are in `flat_model`: `specs/File.antt` (names, and which group has which file), `specs/Values.antt`
//! (values and their faults), `specs/FileText.antt` (texts). `specs/FileMeaning.antt` in this crate maps files, what can be
//! written to them, and faults to the model's, `specs/Shown.antt` says what `show`, `render` and `render_home` return. Their laws
//! are in `journal_laws`.
#![tactic(auto)]

mod cat;
mod fault;
mod file;
mod home;
mod limit;
mod number;
mod texts;
mod value;

pub use cat::{Shown, refuses_show, render, show};
pub use fault::{ShowFault, ShowRefusal, ValueFault};
pub use file::{File, Written};
pub use home::render_home;
pub use limit::{limit_file_name, limit_text, read_limit};
pub use value::{read_kill, read_pid};
