//! The table of refusals.

ghost use Rattle.std.specs.Prelude.{◌≡◌};
ghost use Rattle.undo_journal.specs.CommandMeaning.{refusal_of};
ghost use Rattle.flat_model.specs.Command.{NothingToUndo};
ghost use Rattle.line_engine.specs.FaultCodes.{refusal_code, reply_code};

use group_path::GroupPath;
use pids_charge::Pid;
use std::alloc::Global;
use std::io::Print;
use std::str::from_utf8;
use trace_lines::put_reply;
use undo_journal::{Refusal, Reply};

fn code(refusal: &Refusal<Global>) -> u32
    ensures { result ≡ refusal_code (refusal_of refusal.now) }
{
    match refusal {
        Refusal::Exists => 1,
        Refusal::NoGroup(_) => 2,
        Refusal::Descendants(_) => 3,
        Refusal::Depth(_) => 4,
        Refusal::NoSlot => 5,
        Refusal::RootFixed => 6,
        Refusal::HasChildren => 7,
        Refusal::HasProcesses => 8,
        Refusal::NoProcess(_) => 9,
        Refusal::PidInUse(_) => 10,
        Refusal::PidsMax(_) => 11,
        Refusal::NoFile => 12,
        Refusal::NotReadable => 13,
    }
}

// The names in Python and Go, and in C.
fn names(refusal: &Refusal<Global>) -> (&'static str, &'static str) {
    match refusal {
        Refusal::Exists => ("Exists", "MK_EXISTS"),
        Refusal::NoGroup(_) => ("NoGroup", "MK_NO_GROUP"),
        Refusal::Descendants(_) => ("Descendants", "MK_DESCENDANTS"),
        Refusal::Depth(_) => ("Depth", "MK_DEPTH"),
        Refusal::NoSlot => ("NoSlot", "MK_NO_SLOT"),
        Refusal::RootFixed => ("RootFixed", "MK_ROOT_FIXED"),
        Refusal::HasChildren => ("HasChildren", "MK_HAS_CHILDREN"),
        Refusal::HasProcesses => ("HasProcesses", "MK_HAS_PROCESSES"),
        Refusal::NoProcess(_) => ("NoProcess", "MK_NO_PROCESS"),
        Refusal::PidInUse(_) => ("PidInUse", "MK_PID_IN_USE"),
        Refusal::PidsMax(_) => ("PidsMax", "MK_PIDS_MAX"),
        Refusal::NoFile => ("NoFile", "MK_NO_FILE"),
        Refusal::NotReadable => ("NotReadable", "MK_NOT_READABLE"),
    }
}

// The errno that the kernel gives for the corresponding system call.
fn errno(refusal: &Refusal<Global>) -> &'static str {
    match refusal {
        Refusal::Exists | Refusal::PidInUse(_) => "EEXIST",
        Refusal::NoGroup(_) | Refusal::NoFile => "ENOENT",
        Refusal::Descendants(_) | Refusal::Depth(_) | Refusal::PidsMax(_) => "EAGAIN",
        Refusal::NoSlot => "ENOSPC",
        Refusal::RootFixed | Refusal::HasChildren | Refusal::HasProcesses => "EBUSY",
        Refusal::NoProcess(_) => "ESRCH",
        Refusal::NotReadable => "EINVAL",
    }
}

fn message(refusal: &Refusal<Global>) -> &'static str {
    match refusal {
        Refusal::Exists => "the group exists",
        Refusal::NoGroup(_) => "there is no such group",
        Refusal::Descendants(_) => "a limit on the number of descendants is reached",
        Refusal::Depth(_) => "a limit on the depth is reached",
        Refusal::NoSlot => "there are 1,024 groups besides the root",
        Refusal::RootFixed => "the root cannot be removed",
        Refusal::HasChildren => "the group has children",
        Refusal::HasProcesses => "the group has processes",
        Refusal::NoProcess(_) => "there is no such process",
        Refusal::PidInUse(_) => "the pid is in use",
        Refusal::PidsMax(_) => "the limit on the number of processes is reached",
        Refusal::NoFile => "the root has no such file",
        Refusal::NotReadable => "the file cannot be read",
    }
}

// What it means, for documents: without capital and full stop.
fn meaning(refusal: &Refusal<Global>) -> &'static str {
    match refusal {
        Refusal::Exists => "the group exists",
        Refusal::NoGroup(_) => "there is no such group; for `mkdir`, the parent",
        Refusal::Descendants(_) => {
            "the group's `cgroup.max.descendants` blocks a new group: the first limit that does, from the parent upward"
        }
        Refusal::Depth(_) => {
            "the group's `cgroup.max.depth` blocks a new group; of one group, the descendants limit comes first"
        }
        Refusal::NoSlot => "there are 1,024 groups besides the root; the kernel has no such limit",
        Refusal::RootFixed => "the root cannot be removed",
        Refusal::HasChildren => "there are groups below the group to be removed",
        Refusal::HasProcesses => "there are processes in the group to be removed",
        Refusal::NoProcess(_) => "there is no such process",
        Refusal::PidInUse(_) => "the child's pid is in use",
        Refusal::PidsMax(_) => {
            "the fork would exceed the group's `pids.max`, the nearest at or above the parent; it is counted and recorded"
        }
        Refusal::NoFile => "the root has no such file",
        Refusal::NotReadable => "no answer has this code: a read of `cgroup.kill` is `direction`",
    }
}

fn print_one<R: Print>(rt: &R, alloc: Global, refusal: Refusal<Global>) -> anyhow::Result<()> {
    let code = code(&refusal);
    let (name, c) = names(&refusal);
    let errno = errno(&refusal);
    let message = message(&refusal);
    let meaning = meaning(&refusal);
    let mut answer = Vec::new(alloc);
    put_reply(alloc, &mut answer, 1, &Reply::Refused(refusal))?;
    let answer = from_utf8(answer.as_slice())?.trim();
    println!(rt; "refusal\t{code}\t{name}\t{c}\t{answer}\t{errno}\t{message}\t{meaning}")?;
    Ok(())
}

pub(crate) fn print<R: Print>(rt: &R, alloc: Global) -> anyhow::Result<()> {
    println!(rt;
        "# refusal: code, name in Python and Go, name in C, an example of its answer, errno, message, meaning"
    )?;
    let Some(pid) = Pid::new(2) else {
        return Ok(());
    };
    let path = GroupPath::read(alloc, b"/a")?;
    print_one(rt, alloc, Refusal::Exists)?;
    print_one(rt, alloc, Refusal::NoGroup(path.copy(alloc)?))?;
    print_one(rt, alloc, Refusal::Descendants(path.copy(alloc)?))?;
    print_one(rt, alloc, Refusal::Depth(path.copy(alloc)?))?;
    print_one(rt, alloc, Refusal::NoSlot)?;
    print_one(rt, alloc, Refusal::RootFixed)?;
    print_one(rt, alloc, Refusal::HasChildren)?;
    print_one(rt, alloc, Refusal::HasProcesses)?;
    print_one(rt, alloc, Refusal::NoProcess(pid))?;
    print_one(rt, alloc, Refusal::PidInUse(pid))?;
    print_one(rt, alloc, Refusal::PidsMax(path))?;
    print_one(rt, alloc, Refusal::NoFile)?;
    print_one(rt, alloc, Refusal::NotReadable)?;
    print_nothing(rt, alloc)
}

fn code_of_nothing() -> u32
    ensures { result ≡ reply_code NothingToUndo }
{
    14
}

// The refusal of an undo that nothing is left for. It is a reply of its own.
fn print_nothing<R: Print>(rt: &R, alloc: Global) -> anyhow::Result<()> {
    let code = code_of_nothing();
    let mut answer = Vec::new(alloc);
    put_reply(alloc, &mut answer, 1, &Reply::NothingToUndo)?;
    let answer = from_utf8(answer.as_slice())?.trim();
    println!(rt;
        "refusal\t{code}\tNothingToUndo\tMK_NOTHING_TO_UNDO\t{answer}\tENODATA\tthere is nothing to undo\tno recorded command is left to undo; the kernel has no undo"
    )?;
    Ok(())
}
