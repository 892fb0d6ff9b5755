//! The reply to a command, and the reasons for a refusal.

ghost use Rattle.std.specs.Prelude.{◌≡◌, IfOk};
ghost use Rattle.undo_journal.specs.CommandMeaning.{refusal_of, reply_of};

use crate::bytes::Bytes;
use crate::command::Command;
use group_path::GroupPath;
use pids_charge::Pid;
use std::alloc::{AllocError, Allocator};

/// Why a command was refused. Only `PidsMax` has changed something.
#[derive(Drop)]
pub enum Refusal<A: Allocator + Clone> {
    /// The group exists already.
    Exists,
    /// This group doesn't exist: the parent of the group to be made, or the group that the command names.
    NoGroup(GroupPath<A>),
    /// This group's limit on the number of groups below it is reached.
    Descendants(GroupPath<A>),
    /// This group's limit on the levels below it is reached.
    Depth(GroupPath<A>),
    /// All slots of the meter are in use: there are as many groups other than the root as slots.
    NoSlot,
    /// The root can't be removed.
    RootFixed,
    /// The group has groups below it.
    HasChildren,
    /// The group has processes.
    HasProcesses,
    /// The process doesn't exist.
    NoProcess(Pid),
    /// The process exists already.
    PidInUse(Pid),
    /// This group's limit on processes would be exceeded. The refused fork was counted at this group and above, and
    /// recorded.
    PidsMax(GroupPath<A>),
    /// The root doesn't have this file.
    NoFile,
    /// The file can be written but not read.
    NotReadable,
}

impl<A: Allocator + Clone> Refusal<A> {
    fn copy<B: Allocator + Clone>(&self, alloc: B) -> Result<Refusal<B>, AllocError>
        ensures { IfOk result (λ r. refusal_of r ≡ refusal_of self.now) }
    {
        match self {
            Refusal::Exists => Ok(Refusal::Exists),
            Refusal::NoGroup(path) => Ok(Refusal::NoGroup(path.copy(alloc)?)),
            Refusal::Descendants(path) => Ok(Refusal::Descendants(path.copy(alloc)?)),
            Refusal::Depth(path) => Ok(Refusal::Depth(path.copy(alloc)?)),
            Refusal::NoSlot => Ok(Refusal::NoSlot),
            Refusal::RootFixed => Ok(Refusal::RootFixed),
            Refusal::HasChildren => Ok(Refusal::HasChildren),
            Refusal::HasProcesses => Ok(Refusal::HasProcesses),
            Refusal::NoProcess(pid) => Ok(Refusal::NoProcess(*pid)),
            Refusal::PidInUse(pid) => Ok(Refusal::PidInUse(*pid)),
            Refusal::PidsMax(path) => Ok(Refusal::PidsMax(path.copy(alloc)?)),
            Refusal::NoFile => Ok(Refusal::NoFile),
            Refusal::NotReadable => Ok(Refusal::NotReadable),
        }
    }
}

/// The reply to a command.
#[derive(Drop)]
pub enum Reply<A: Allocator + Clone> {
    /// The command was done.
    Done,
    /// The text that was read.
    Text(Bytes<A>),
    /// This command was undone.
    Undone(Command<A>),
    /// The command was refused.
    Refused(Refusal<A>),
    /// No recorded command is left to undo.
    NothingToUndo,
    /// Out of memory. Nothing has changed.
    OutOfMemory,
}

impl<A: Allocator + Clone> Reply<A> {
    /// Copies the reply into another allocator, in time linear in its text or path.
    ///
    /// # Errors
    ///
    /// `AllocError` when out of memory.
    pub fn copy<B: Allocator + Clone>(&self, alloc: B) -> Result<Reply<B>, AllocError>
        ensures { IfOk result (λ r. reply_of r ≡ reply_of self.now) }
    {
        match self {
            Reply::Done => Ok(Reply::Done),
            Reply::Text(text) => Ok(Reply::Text(text.copy(alloc)?)),
            Reply::Undone(command) => Ok(Reply::Undone(command.copy(alloc)?)),
            Reply::Refused(refusal) => Ok(Reply::Refused(refusal.copy(alloc)?)),
            Reply::NothingToUndo => Ok(Reply::NothingToUndo),
            Reply::OutOfMemory => Ok(Reply::OutOfMemory),
        }
    }
}
