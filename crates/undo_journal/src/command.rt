//! The commands of the engine, and the text of each as a line of a trace.

ghost use Rattle.std.specs.Prelude.{◌≡◌, ◌∷◌, ◌++◌, IfOk, codes};
ghost use Rattle.flat_model.specs.CommandText.{command_text};
ghost use Rattle.undo_journal.specs.CommandMeaning.{command_of};

use group_path::GroupPath;
use group_tree::{Limit, LimitFile};
use interface_files::{File, limit_file_name, limit_text};
use itoa::Buffer;
use pids_charge::Pid;
use std::alloc::{AllocError, Allocator};

/// Two words with a space between them.
fn two_words<B: Allocator>(alloc: B, first: &[u8], second: &[u8]) -> Result<Vec<u8, B>, AllocError>
    ensures { IfOk result (λ text. text.items ≡ first.now ++ 0x20 ∷ second.now) }
{
    let mut text = Vec::from_slice(alloc, first)?;
    text.extend_from_slice(b" ")?;
    text.extend_from_slice(second)?;
    Ok(text)
}

/// Three words with spaces between them.
fn three_words<B: Allocator>(
    alloc: B,
    first: &[u8],
    second: &[u8],
    third: &[u8],
) -> Result<Vec<u8, B>, AllocError>
    ensures { IfOk result (λ text. text.items ≡ first.now ++ 0x20 ∷ second.now ++ 0x20 ∷ third.now) }
{
    let mut text = two_words(alloc, first, second)?;
    text.extend_from_slice(b" ")?;
    text.extend_from_slice(third)?;
    Ok(text)
}

/// The line that writes a value to a file of a group.
fn write_line<B: Allocator>(
    alloc: B,
    path: &[u8],
    file: &[u8],
    value: &[u8],
) -> Result<Vec<u8, B>, AllocError>
    ensures { IfOk result (λ text. text.items ≡ codes "write" ++ 0x20 ∷ path.now ++ 0x20 ∷ file.now ++ 0x20 ∷ value.now) }
{
    let mut text = three_words(alloc, b"write", path, file)?;
    text.extend_from_slice(b" ")?;
    text.extend_from_slice(value)?;
    Ok(text)
}

/// A command to the engine.
#[derive(Drop)]
pub enum Command<A: Allocator + Clone> {
    /// Makes a group under an existing one: `mkdir`.
    MakeGroup(GroupPath<A>),
    /// Removes a group without groups below it and without processes: `rmdir`.
    RemoveGroup(GroupPath<A>),
    /// Makes a process in the group of its parent.
    Fork {
        /// The process that forks.
        parent: Pid,
        /// The new process.
        child: Pid,
    },
    /// Ends a process.
    Exit(Pid),
    /// Moves a process into a group: a write to `cgroup.procs`.
    Move {
        /// The group that it moves to.
        path: GroupPath<A>,
        /// The process.
        pid: Pid,
    },
    /// Sets a limit of a group: a write to its file.
    SetLimit {
        /// The group.
        path: GroupPath<A>,
        /// Which limit.
        file: LimitFile,
        /// The limit.
        value: Limit,
    },
    /// Kills all processes at and below a group: a write to `cgroup.kill`.
    Kill(GroupPath<A>),
    /// Reads a file of a group.
    Show {
        /// The group.
        path: GroupPath<A>,
        /// The file.
        file: File,
    },
    /// Reads which group a process belongs to: `where`.
    Locate(Pid),
    /// Undoes the newest recorded command.
    Undo,
}

impl<A: Allocator + Clone> Command<A> {
    /// Copies the command into another allocator, in time linear in its path.
    ///
    /// # Errors
    ///
    /// `AllocError` when out of memory.
    pub fn copy<B: Allocator + Clone>(&self, alloc: B) -> Result<Command<B>, AllocError>
        ensures { IfOk result (λ c. command_of c ≡ command_of self.now) }
    {
        match self {
            Command::MakeGroup(path) => Ok(Command::MakeGroup(path.copy(alloc)?)),
            Command::Fork { parent, child } => Ok(Command::Fork {
                parent: *parent,
                child: *child,
            }),
            Command::RemoveGroup(path) => Ok(Command::RemoveGroup(path.copy(alloc)?)),
            Command::Exit(pid) => Ok(Command::Exit(*pid)),
            Command::Move { path, pid } => Ok(Command::Move {
                path: path.copy(alloc)?,
                pid: *pid,
            }),
            Command::SetLimit { path, file, value } => Ok(Command::SetLimit {
                path: path.copy(alloc)?,
                file: *file,
                value: *value,
            }),
            Command::Kill(path) => Ok(Command::Kill(path.copy(alloc)?)),
            Command::Show { path, file } => Ok(Command::Show {
                path: path.copy(alloc)?,
                file: *file,
            }),
            Command::Locate(pid) => Ok(Command::Locate(*pid)),
            Command::Undo => Ok(Command::Undo),
        }
    }

    /// The command as a line of a trace, without the line feed: `mkdir /a`, `fork 1 2`, `write /a cgroup.procs 2`,
    /// `write /a pids.max 3`, `write /a cgroup.kill 1`, `cat /a pids.current`, `where 2`, `undo`. Linear in its path.
    ///
    /// # Errors
    ///
    /// `AllocError` when out of memory.
    pub fn text<B: Allocator + Clone>(&self, alloc: B) -> Result<Vec<u8, B>, AllocError>
        ensures { IfOk result (λ text. text.items ≡ command_text (command_of self.now)) }
    {
        let mut digits = Buffer::new();
        match self {
            Command::MakeGroup(path) => two_words(alloc, b"mkdir", path.text()),
            Command::RemoveGroup(path) => two_words(alloc, b"rmdir", path.text()),
            Command::Fork { parent, child } => {
                let mut more = Buffer::new();
                let parent = digits.format(parent.get()).as_bytes();
                let child = more.format(child.get()).as_bytes();
                three_words(alloc, b"fork", parent, child)
            }
            Command::Exit(pid) => two_words(alloc, b"exit", digits.format(pid.get()).as_bytes()),
            Command::Move { path, pid } => {
                let pid = digits.format(pid.get()).as_bytes();
                write_line(alloc, path.text(), File::Procs.name(), pid)
            }
            Command::SetLimit { path, file, value } => {
                let value = limit_text(alloc.clone()?, *value)?;
                write_line(alloc, path.text(), limit_file_name(*file), value.as_slice())
            }
            Command::Kill(path) => write_line(alloc, path.text(), File::KillFile.name(), b"1"),
            Command::Show { path, file } => three_words(alloc, b"cat", path.text(), file.name()),
            Command::Locate(pid) => two_words(alloc, b"where", digits.format(pid.get()).as_bytes()),
            Command::Undo => Vec::from_slice(alloc, b"undo"),
        }
    }
}
