//! A line of a trace: from its bytes to its command, and from the reply to bytes.
//!
//! - `Lines` cuts a trace at line feeds. A line is cut into words at spaces, tabs and carriage returns. A line without
//!   words, and one whose first word begins with `#`, is skipped (`Line::Skip`). Every other line has a number, which the
//!   caller counts.
//! - A line is a command, or is refused as `syntax`, `path`, `file`, `direction` or `value`, the first that applies
//!   (`TextFault`). The commands are `mkdir P`, `rmdir P`, `fork PARENT CHILD`, `exit PID`, `write P FILE VALUE`, `cat P
//!   FILE`, `where PID` and `undo`. Any other first word is `syntax`. The files, their directions and their values are those
//!   of `interface_files`.
//! - The output for a command is `N ok` followed by the lines of a text, or `N refused` and words (`put_reply`,
//!   `put_fault`).
//!
//! The meaning of a line is `read_line` of `flat_model`, and its output `reply_bytes` and `fault_bytes` there.
//! `specs/LineMeaning.antt` relates `Line` and `TextFault` to them. The laws of these definitions are in `journal_laws`;
//! those of what only this crate can name are in `laws`. Each call is linear in its bytes; nothing else is promised about time.
#![tactic(auto)]

mod action;
mod commands;
mod fault;
pub mod laws;
mod line;
mod lines;
mod replies;
mod words;

pub use fault::TextFault;
pub use line::{LINE_MAX, Line, parse_line};
pub use lines::Lines;
pub use replies::{is_refused, put_fault, put_reply};
