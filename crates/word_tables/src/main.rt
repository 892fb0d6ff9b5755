//! Prints the table of Makhloeum's words: files, commands, refusals, faults, statuses and numbers.
//!
//! - Each line is a row: the name of its table, and its columns, with one tab between them. Lines that begin with `#` explain
//!   the tables. `-` is an empty column.
//! - What the crates below export is taken from them: a file's name and directions from `interface_files`, a command's line
//!   from `undo_journal`, an answer's words from `trace_lines`, numbers from their constants. A code is proved to be the one
//!   that `line_engine` gives.
//! - The other columns are kept here: names in C, errnos, messages and sentences. Each is a `match` over the enum of the crate
//!   below, so a new variant has to be given its columns before this program compiles.
//!
//! The stored `stdout` is the table in the repository; `bindings/generate` writes code and documents from it.
#![tactic(auto)]

mod commands;
mod faults;
mod files;
mod numbers;
mod paths;
mod refusals;
mod statuses;

use std::alloc::Global;

fn main(rt: HostRuntime) -> anyhow::Result<()> {
    let alloc: Global = rt.alloc();
    println!(rt;
        "# The words of Makhloeum. crates/word_tables prints this table; bindings/generate writes code and documents from it."
    )?;
    println!(rt;
        "# A row has the name of its table and its columns, with a tab between them; - is an empty column."
    )?;
    files::print(&rt)?;
    commands::print(&rt, alloc)?;
    refusals::print(&rt, alloc)?;
    faults::print(&rt, alloc)?;
    paths::print(&rt)?;
    statuses::print(&rt)?;
    numbers::print(&rt)
}
