//! The table of files.

use group_tree::LimitFile;
use interface_files::{File, Written};
use std::io::Print;
use std::str::from_utf8;

// All files, in the order of the documents.
const FILES: [File; 11] = [
    File::Procs,
    File::Events,
    File::Stat,
    File::MaxDescendants,
    File::MaxDepth,
    File::KillFile,
    File::PidsMax,
    File::PidsCurrent,
    File::PidsPeak,
    File::PidsEvents,
    File::PidsEventsLocal,
];

// What a text of the file consists of.
fn text(file: File) -> &'static str {
    match file {
        File::Procs => {
            "the pids of the group itself, ascending, each on its own line; no bytes if there are none"
        }
        File::Events => "`populated 1` or `populated 0`, then `frozen 0`",
        File::Stat => "`nr_descendants N`, then `nr_dying_descendants 0`",
        File::MaxDescendants | File::MaxDepth | File::PidsMax => "`max` or the number",
        File::KillFile => "-",
        File::PidsCurrent => "the number",
        File::PidsPeak => {
            "the number: the most processes that the group and those below it have had at once, 0 in a new group"
        }
        File::PidsEvents => {
            "`max N`: the forks refused by this group's limit or by that of a group below it"
        }
        File::PidsEventsLocal => "`max N`: the forks refused by this group's own limit",
    }
}

// Whether a changed text wakes those that poll or watch the file.
fn is_notified(file: File) -> bool {
    match file {
        File::Events | File::PidsEvents | File::PidsEventsLocal => true,
        File::Procs
        | File::Stat
        | File::MaxDescendants
        | File::MaxDepth
        | File::KillFile
        | File::PidsMax
        | File::PidsCurrent
        | File::PidsPeak => false,
    }
}

fn written(file: File) -> &'static str {
    match file.written() {
        None => "-",
        Some(Written::Pid) => "pid",
        Some(Written::Limit(LimitFile::PidsMax)) => "pids-limit",
        Some(Written::Limit(LimitFile::MaxDescendants | LimitFile::MaxDepth)) => "groups-limit",
        Some(Written::Kill) => "1",
    }
}

fn yes(is_so: bool) -> &'static str {
    if is_so { "yes" } else { "no" }
}

pub(crate) fn print<R: Print>(rt: &R) -> anyhow::Result<()> {
    println!(rt;
        "# file: name, on the root, read, written, whether a change wakes those that poll it, text"
    )?;
    for file in FILES {
        let name = from_utf8(file.name())?;
        let on_root = yes(file.on_root());
        let readable = yes(file.readable());
        let notified = yes(is_notified(file));
        println!(rt;
            "file\t{name}\t{on_root}\t{readable}\t{}\t{notified}\t{}",
            written(file),
            text(file)
        )?;
    }
    Ok(())
}
