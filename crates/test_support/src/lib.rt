//! What the crates of tests share: case files, calls with each allocation refused, and a barrier for the parts of a test hook.
//!
//! # Case files
//!
//! A crate of tests is a program whose cases are data. Its arguments (`args`) name its case files (`data/*.cases`).
//!
//! ```text
//! # What the next subject shows, in plain words.
//! == a limit below the present count refuses each fork
//! mkdir /a => ok
//! write /a pids.max 1 => ok
//! fork 1 2 => refused pidsmax /a
//! ```
//!
//! - `== TITLE` begins a new subject. The lines below it are calls on it, in order.
//! - `CALL => ANSWER`: the words of the call are separated by single blanks. An empty answer is written `nothing`.
//! - In a call and in an answer `\n` is a line feed, `\\` a backslash, and `\xNN`, with lowercase digits, any other byte
//!   outside printable ASCII. A call may write any byte as `\xNN`: `\x20` is a blank within a word.
//! - An empty line is skipped, and so is a line that begins with `#`.
//! - `heap BYTES`: each subject below this line, up to the next such line, is also made in a heap of this size, and each
//!   allocation of each call on it is refused. `CALL -> ANSWER` then says that the call takes no memory, and
//!   `CALL => ANSWER` that it takes some. Without such a line there is no `->`.
//! - `heap BYTES FROM TO`: the same, but no call is made with room for FROM blocks or more, and fewer than TO. It saves time
//!   where one allocation is that large.
//! - `subject WORD`: the kind of the subjects below this line, where a crate of tests has several kinds.
//!
//! A failed call prints `FILE:LINE: CALL: said X, wanted Y`. The run goes on with the next subject, and the exit status is 1.
//! A run without failures prints a line for each file: `mkdir.cases: 41 calls`.
//!
//! # Refused allocations
//!
//! `run_refused` fills the heap with room for no block of sixteen bytes, then for one, then for two and so on. It makes the
//! call each time, and stops when the call is answered. So each allocation of the call is refused at least once, without
//! counting them. Each refusal leaves the heap and all that can be read of the subject as they were. The answer, and all
//! that can be read afterwards, are those with ample memory. `see_empty` then tests that dropping the subject empties the heap.
//!
//! # Use
//!
//! ```text
//! struct Trees;
//!
//! impl Suite for Trees {
//!     fn run<R: Threads + Wait + Sync>(
//!         &self,
//!         rt: &R,
//!         alloc: Global,
//!         group: &Group,
//!         tally: &mut Tally,
//!     ) -> Result<(), AllocError> {
//!         let mut ample = Tree::new(alloc)?;
//!         let Some(size) = group.heap else {
//!             return run_ample(rt, alloc, &mut ample, group, tally);
//!         };
//!         let heap = LocalHeap::new(alloc, size)?;
//!         let in_heap = Tree::new(&heap)?;
//!         let mut twins = Twins { in_heap, ample };
//!         run_refused(rt, alloc, &heap, &mut twins, group, tally)?;
//!         drop(twins);
//!         see_empty(&heap, group, tally)
//!     }
//! }
//!
//! fn main(rt: HostRuntime) -> ExitCode {
//!     run_suite(&rt, &Trees)
//! }
//! ```
//!
//! Not promised: that `all_but` finds free memory in pieces of fewer than sixteen bytes, or more than `BLOCKS_MAX` blocks.
//! No program uses this crate.
#![tactic(auto)]

mod barrier;
mod cases;
mod escapes;
mod paths;
mod refused;
mod room;
mod suite;

pub use barrier::Barrier;
pub use cases::{Case, CaseFault, Group};
pub use escapes::push_escaped;
pub use paths::path;
pub use refused::{Outcome, Subject, Twins, run_ample, run_refused, see_empty};
pub use room::{BLOCK_SIZE, BLOCKS_MAX, Tried, all_but};
pub use suite::{Suite, Tally, run_suite};
