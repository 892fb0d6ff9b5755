//! The table of faults of a path.

ghost use Rattle.std.specs.Prelude.{◌≡◌};
ghost use Rattle.line_engine.specs.PathFaults.{number_of};

use group_path::PathFault;
use std::io::Print;

// In the order in which they are numbered.
const FAULTS: [PathFault; 8] = [
    PathFault::NotRooted,
    PathFault::TooLong,
    PathFault::TooDeep,
    PathFault::EmptyName,
    PathFault::BadByte(0),
    PathFault::NameTooLong,
    PathFault::DotName,
    PathFault::Reserved,
];

// The library's number; 0 for out of memory, which is not a fault of the text.
fn number(fault: PathFault) -> u32
    ensures { result ≡ number_of fault }
{
    match fault {
        PathFault::OutOfMemory => 0,
        PathFault::NotRooted => 1,
        PathFault::TooLong => 2,
        PathFault::TooDeep => 3,
        PathFault::EmptyName => 4,
        PathFault::BadByte(_) => 5,
        PathFault::NameTooLong => 6,
        PathFault::DotName => 7,
        PathFault::Reserved => 8,
    }
}

// The names in Python and Go, and in C.
fn names(fault: PathFault) -> (&'static str, &'static str) {
    match fault {
        PathFault::OutOfMemory => ("-", "-"),
        PathFault::NotRooted => ("NotRooted", "MK_NOT_ROOTED"),
        PathFault::TooLong => ("PathTooLong", "MK_PATH_TOO_LONG"),
        PathFault::TooDeep => ("TooDeep", "MK_TOO_DEEP"),
        PathFault::EmptyName => ("EmptyName", "MK_EMPTY_NAME"),
        PathFault::BadByte(_) => ("BadByte", "MK_BAD_BYTE"),
        PathFault::NameTooLong => ("NameTooLong", "MK_NAME_TOO_LONG"),
        PathFault::DotName => ("DotName", "MK_DOT_NAME"),
        PathFault::Reserved => ("ReservedName", "MK_RESERVED"),
    }
}

// The errno of a mkdir in a mount.
fn errno(fault: PathFault) -> &'static str {
    match fault {
        PathFault::OutOfMemory => "ENOMEM",
        PathFault::TooLong | PathFault::NameTooLong => "ENAMETOOLONG",
        PathFault::TooDeep => "EAGAIN",
        PathFault::NotRooted
        | PathFault::EmptyName
        | PathFault::BadByte(_)
        | PathFault::DotName
        | PathFault::Reserved => "EINVAL",
    }
}

fn message(fault: PathFault) -> &'static str {
    match fault {
        PathFault::OutOfMemory => "out of memory",
        PathFault::NotRooted => "a path begins with a slash",
        PathFault::TooLong => "the path has more than 4,095 bytes",
        PathFault::TooDeep => "there are more than 32 names",
        PathFault::EmptyName => "a name is empty",
        PathFault::BadByte(_) => "a name cannot have this byte",
        PathFault::NameTooLong => "a name has more than 255 bytes",
        PathFault::DotName => "a name is `.` or `..`",
        PathFault::Reserved => "a name begins with `cgroup.` or `pids.`",
    }
}

// What it means, for documents: without capital and full stop.
fn meaning(fault: PathFault) -> &'static str {
    match fault {
        PathFault::OutOfMemory => "out of memory",
        PathFault::NotRooted => "the path does not begin with a slash",
        PathFault::TooLong => "the path has more than 4,095 bytes",
        PathFault::TooDeep => "there are more than 32 names",
        PathFault::EmptyName => "a name is empty, as after a slash at the end",
        PathFault::BadByte(_) => {
            "a name cannot have the byte at the position: names consist of printable ASCII"
        }
        PathFault::NameTooLong => "a name has more than 255 bytes",
        PathFault::DotName => "a name is `.` or `..`",
        PathFault::Reserved => "a name begins with `cgroup.` or `pids.`",
    }
}

// Where the fault is in the path.
fn position(fault: PathFault) -> &'static str {
    match fault {
        PathFault::OutOfMemory | PathFault::NotRooted => "0",
        PathFault::TooLong => "of the first byte too many: 4,095",
        PathFault::TooDeep => "of the 33rd name",
        PathFault::BadByte(_) => "of the byte",
        PathFault::EmptyName | PathFault::NameTooLong | PathFault::DotName | PathFault::Reserved =>
            "of the name",
    }
}

pub(crate) fn print<R: Print>(rt: &R) -> anyhow::Result<()> {
    println!(rt;
        "# path: number, name in Python and Go, name in C, position, errno of a mkdir in a mount, message, meaning"
    )?;
    for fault in FAULTS {
        let number = number(fault);
        let (name, c) = names(fault);
        let position = position(fault);
        let errno = errno(fault);
        let message = message(fault);
        println!(rt;
            "path\t{number}\t{name}\t{c}\t{position}\t{errno}\t{message}\t{}",
            meaning(fault)
        )?;
    }
    Ok(())
}
