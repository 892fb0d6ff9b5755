//! One line of a trace at a time, answered into the caller's buffer, on the caller's thread.
//!
//! - A `LineEngine` is an engine over plain numbers: the groups, the processes and the journal. `answer` reads one line and
//!   answers it as a replay does, with the number that the caller gives. It starts no thread, takes no lock and waits for
//!   nobody.
//! - If the buffer is too small, or when out of memory, nothing changes. `TooSmall` has the length of the whole output. The
//!   output of a change is made before the command runs. A refused fork whose output doesn't fit is undone, which allocates
//!   nothing.
//! - With the output comes a code: 0, or the number of the refusal or fault. `docs/FORMATS.md` lists the codes.
//! - `children` puts the names of a group's children into a buffer, each followed by a zero byte. `has_group` says whether a
//!   group exists. `groups` puts the paths of all groups, `subtree` those of a group and the groups below it. `history` puts
//!   the recorded commands from a place on as lines. All of these only read.
//! - `current`, `populated`, `peak` and `limit` return a number of a group without a text, and change nothing.
//! - `path_fault` says which fault a text has that is not a path, and where it is. A refused allocation changes nothing of that.
//! - `forget` drops the journal and keeps groups and processes. `copy` makes an engine of its own with the same groups,
//!   processes and journal.
//!
//! Not promised: what the buffer holds if there is no output.
//!
//! `specs/LineAnswers.antt` says what answering a line returns and leaves, `specs/FaultCodes.antt` lists the codes,
//! `specs/Listings.antt` says what a listing of groups holds, `specs/Numbers.antt` what the numbers of a group are,
//! `specs/PathFaults.antt` where the fault of a text is, and `specs/Buffer.antt` what a buffer holds and when it is too
//! small.
#![tactic(auto)]

mod answer;
mod engine;
mod groups;
mod history;
mod listing;
mod numbers;
mod path_faults;
mod running;
mod writing;

pub use answer::Answer;
pub use engine::LineEngine;
pub use listing::{Found, Listing};
pub use numbers::Number;
pub use path_faults::{FaultAt, path_fault};
