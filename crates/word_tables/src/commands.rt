//! The table of commands.

use group_path::GroupPath;
use group_tree::{Limit, LimitFile};
use interface_files::File;
use pids_charge::Pid;
use std::alloc::Global;
use std::io::Print;
use std::str::from_utf8;
use undo_journal::Command;

// The words after the first, as documents name them.
fn arguments(command: &Command<Global>) -> &'static str {
    match command {
        Command::MakeGroup(_) | Command::RemoveGroup(_) => "PATH",
        Command::Fork { .. } => "PARENT CHILD",
        Command::Exit(_) | Command::Locate(_) => "PID",
        Command::Move { .. } => "PATH cgroup.procs PID",
        Command::SetLimit { .. } => "PATH FILE VALUE",
        Command::Kill(_) => "PATH cgroup.kill 1",
        Command::Show { .. } => "PATH FILE",
        Command::Undo => "-",
    }
}

fn meaning(command: &Command<Global>) -> &'static str {
    match command {
        Command::MakeGroup(_) => "make a group",
        Command::RemoveGroup(_) => "remove a group without groups below it and without processes",
        Command::Fork { .. } => "the process PARENT forks CHILD, which starts in its group",
        Command::Exit(_) => "the process exits and is reaped",
        Command::Move { .. } => "move a process to the group",
        Command::SetLimit { .. } => "set the limit that the file holds: a number or `max`",
        Command::Kill(_) => "kill all processes of the group and below it",
        Command::Show { .. } => "show a file",
        Command::Locate(_) => "show `/proc/PID/cgroup`",
        Command::Undo =>
            "undo the newest recorded command: one that was accepted, or a fork that `pids.max` refused",
    }
}

fn print_one<R: Print>(rt: &R, alloc: Global, command: &Command<Global>) -> anyhow::Result<()> {
    let line = command.text(alloc)?;
    let line = from_utf8(line.as_slice())?;
    println!(rt;
        "command\t{line}\t{}\t{}",
        arguments(command),
        meaning(command)
    )?;
    Ok(())
}

pub(crate) fn print<R: Print>(rt: &R, alloc: Global) -> anyhow::Result<()> {
    println!(rt; "# command: an example of its line, its arguments, meaning")?;
    let (Some(parent), Some(child)) = (Pid::new(1), Pid::new(2)) else {
        return Ok(());
    };
    let path = GroupPath::read(alloc, b"/a")?;
    print_one(rt, alloc, &Command::MakeGroup(path.copy(alloc)?))?;
    print_one(rt, alloc, &Command::RemoveGroup(path.copy(alloc)?))?;
    print_one(rt, alloc, &Command::Fork { parent, child })?;
    print_one(rt, alloc, &Command::Exit(child))?;
    let moved = path.copy(alloc)?;
    print_one(
        rt,
        alloc,
        &Command::Move {
            path: moved,
            pid: child,
        },
    )?;
    let limited = path.copy(alloc)?;
    let limit = Command::SetLimit {
        path: limited,
        file: LimitFile::PidsMax,
        value: Limit::At(3),
    };
    print_one(rt, alloc, &limit)?;
    print_one(rt, alloc, &Command::Kill(path.copy(alloc)?))?;
    let shown = Command::Show {
        path,
        file: File::PidsCurrent,
    };
    print_one(rt, alloc, &shown)?;
    print_one(rt, alloc, &Command::Locate(child))?;
    print_one(rt, alloc, &Command::Undo)
}
