//! The interface files of a group: their names, which groups have them, and which can be read or written.

ghost use Rattle.std.specs.Prelude.{◌≡◌, find, option_map};
ghost use Rattle.flat_model.specs.File.{file_name, file_named, on_root, readable, value_kind, writable};
ghost use Rattle.flat_model.specs.Path.{same_name};
ghost use Rattle.interface_files.specs.FileMeaning.{file_of, kind_of};

use crate::file::Written::{Kill, Limit, Pid};
use group_tree::LimitFile::{self, MaxDepth, MaxDescendants, PidsMax};

/// An interface file of a group (admin-guide, "Core Interface Files" and "PID Interface Files").
#[derive(Clone, Copy, Debug, PartialEq, Eq)]
pub enum File {
    /// `cgroup.procs`: the processes of the group itself. Writing a pid moves that process to the group.
    Procs,
    /// `cgroup.events`: whether a process is in the group or below it. The root has none.
    Events,
    /// `cgroup.stat`: how many groups are below the group.
    Stat,
    /// `cgroup.max.descendants`: how many groups may be below the group.
    MaxDescendants,
    /// `cgroup.max.depth`: how many levels may be below the group.
    MaxDepth,
    /// `cgroup.kill`: writing `1` ends all processes in the group and below it. It can't be read. The root has none.
    KillFile,
    /// `pids.max`: how many processes may be in the group and below it. The root has none.
    PidsMax,
    /// `pids.current`: how many processes are in the group and below it. The root has none.
    PidsCurrent,
    /// `pids.peak`: the most processes that have been in the group and below it at once. The root has none.
    PidsPeak,
    /// `pids.events`: how many forks the group's `pids.max`, or one below it, has refused. The root has none.
    PidsEvents,
    /// `pids.events.local`: how many forks the group's own `pids.max` has refused. The root has none.
    PidsEventsLocal,
}

/// What can be written to a file.
#[derive(Clone, Copy, Debug, PartialEq, Eq)]
pub enum Written {
    /// A pid.
    Pid,
    /// A limit of the group.
    Limit(LimitFile),
    /// `1`, the only value of `cgroup.kill`.
    Kill,
}

// What one file has: its name, whether the root has the file too, whether it can be read, and what can be written to it.
#[derive(Clone, Copy)]
struct Row {
    name: &'static [u8],
    is_on_root: bool,
    is_readable: bool,
    written: Option<Written>,
}

impl Row {
    fn new(
        name: &'static [u8],
        is_on_root: bool,
        is_readable: bool,
        written: Option<Written>,
    ) -> Row
        ensures name { result.name.now ≡ name.now }
        ensures flags { (result.is_on_root ≡ is_on_root) × (result.is_readable ≡ is_readable) }
        ensures written { result.written ≡ written }
    {
        Row {
            name,
            is_on_root,
            is_readable,
            written,
        }
    }
}

/// All interface files.
const FILES: [File; 11] = [
    File::Procs,
    File::Events,
    File::Stat,
    File::MaxDescendants,
    File::MaxDepth,
    File::KillFile,
    File::PidsMax,
    File::PidsCurrent,
    File::PidsPeak,
    File::PidsEvents,
    File::PidsEventsLocal,
];

fn is_named(file: File, name: &[u8]) -> bool
    ensures { result ≡ same_name (file_name (file_of file)) name.now }
{
    file.name() == name
}

// The first of the files that has this name.
fn first_named(files: &[File], name: &[u8]) -> Option<File>
    ensures { result ≡ find (λ f. same_name (file_name (file_of f)) name.now) files.now }
{
    files.iter().copied().find(|file| is_named(*file, name))
}

impl File {
    /// The file with that name; None if no file has it. Allocates nothing.
    pub fn read(name: &[u8]) -> Option<File>
        ensures { option_map file_of result ≡ file_named name.now }
    {
        first_named(&FILES, name)
    }

    // The table of the files.
    fn row(self) -> Row
        ensures name { result.name.now ≡ file_name (file_of self) }
        ensures on_root { result.is_on_root ≡ on_root (file_of self) }
        ensures readable { result.is_readable ≡ readable (file_of self) }
        ensures written { option_map kind_of result.written ≡ value_kind (file_of self) }
    {
        match self {
            File::Procs => Row::new(b"cgroup.procs", true, true, Some(Pid)),
            File::Events => Row::new(b"cgroup.events", false, true, None),
            File::Stat => Row::new(b"cgroup.stat", true, true, None),
            File::MaxDescendants => {
                Row::new(
                    b"cgroup.max.descendants",
                    true,
                    true,
                    Some(Limit(MaxDescendants)),
                )
            }
            File::MaxDepth => Row::new(b"cgroup.max.depth", true, true, Some(Limit(MaxDepth))),
            File::KillFile => Row::new(b"cgroup.kill", false, false, Some(Kill)),
            File::PidsMax => Row::new(b"pids.max", false, true, Some(Limit(PidsMax))),
            File::PidsCurrent => Row::new(b"pids.current", false, true, None),
            File::PidsPeak => Row::new(b"pids.peak", false, true, None),
            File::PidsEvents => Row::new(b"pids.events", false, true, None),
            File::PidsEventsLocal => Row::new(b"pids.events.local", false, true, None),
        }
    }

    /// The name of the file.
    pub fn name(self) -> &'static [u8]
        ensures { result.now ≡ file_name (file_of self) }
    {
        self.row().name
    }

    /// Whether the root has the file too.
    pub fn on_root(self) -> bool
        ensures { result ≡ on_root (file_of self) }
    {
        self.row().is_on_root
    }

    /// Whether the file can be read: all but `cgroup.kill` can.
    pub fn readable(self) -> bool
        ensures { result ≡ readable (file_of self) }
    {
        self.row().is_readable
    }

    /// What can be written to the file, if anything.
    pub fn written(self) -> Option<Written>
        ensures { option_map kind_of result ≡ value_kind (file_of self) }
    {
        self.row().written
    }

    /// Whether the file can be written: `cgroup.procs` takes a pid, `cgroup.kill` takes `1`, and the files of limits take a
    /// limit.
    pub fn writable(self) -> bool
        ensures { result ≡ writable (file_of self) }
    {
        self.written().is_some()
    }
}
