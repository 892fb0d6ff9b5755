//! Processes by their pids, and by the rows of their groups.
//!
//! - Contracts see a `ProcessTable` as the list of its pids with their processes, pids ascending. A `BTreeMap` from
//!   pids to processes is seen the same way, and the clauses use the same words.
//! - Lookup, insertion and removal of a process take constant time. `take` allocates nothing, and returns the process
//!   with the path that was inserted.
//! - `inside` costs time in the number of processes that it lists, and tests one path for each row. It sorts its list:
//!   O(n log n) for n pids. `unordered` borrows a row's list in constant time, unsorted.
//! - `insert` is the only call that allocates memory for the table. If that fails, nothing that can be read has
//!   changed.
//!
//! A page has the cells of 64 consecutive pids. It is allocated when the first of them is inserted. The page that was
//! emptied last keeps its memory, since processes come and go; the one that was emptied before it is freed. A search is
//! two loads, whatever the pids are. A hash table with a fixed seed would have a worst case: a trace that chooses its
//! pids could make each search long. Ascending pids fill their pages; a lone pid takes a page of 3,072 bytes. Pages of
//! row numbers over dense rows would take less memory for scattered pids, and one more load for each search.
//!
//! Each row has a list of its pids, in no order. A cell stores the index of its pid in that list. So a process leaves
//! its row in constant time: the last pid of the list moves to its index.
//!
//! Not promised: where a process is in memory, and the order of a list. The lists of pages, of rows and of pids keep
//! their memory until the table is dropped.
//!
//! `specs/Rows.antt` says which list represents a table. `specs/Tied.antt` says how cells and lists agree.
#![tactic(auto)]

mod gather;
mod members;
mod page;
mod pages;
mod process;
mod table;
mod tied;

pub use process::Process;
pub use table::ProcessTable;
