//! Whether two commands or two replies mean the same, whichever allocators they use.

ghost use Rattle.std.specs.Prelude.{◌≡◌, ◌↔◌, IsTrue};
ghost use Rattle.group_tree.specs.Flat.{limit_of, limit_file_of};
ghost use Rattle.interface_files.specs.FileMeaning.{file_of};
ghost use Rattle.undo_journal.specs.CommandMeaning.{command_of, refusal_of, reply_of};

use crate::command::Command;
use crate::reply::{Refusal, Reply};
use group_path::GroupPath;
use group_tree::{Limit, LimitFile};
use interface_files::File;
use std::alloc::Allocator;

fn is_same_path<A: Allocator + Clone, B: Allocator + Clone>(
    path: &GroupPath<A>,
    other: &GroupPath<B>,
) -> bool
    ensures { IsTrue result ↔ (path.now ≡ other.now) }
{
    path.is_same(other)
}

fn is_same_limit(limit: Limit, other: Limit) -> bool
    ensures { IsTrue result ↔ (limit_of limit ≡ limit_of other) }
{
    limit == other
}

fn is_same_limit_file(file: LimitFile, other: LimitFile) -> bool
    ensures { IsTrue result ↔ (limit_file_of file ≡ limit_file_of other) }
{
    file == other
}

fn is_same_file(file: File, other: File) -> bool
    ensures { IsTrue result ↔ (file_of file ≡ file_of other) }
{
    file == other
}

impl<A: Allocator + Clone> Command<A> {
    /// Whether the other command means the same. Linear in its path.
    pub fn is<B: Allocator + Clone>(&self, other: &Command<B>) -> bool
        ensures { IsTrue result ↔ (command_of self.now ≡ command_of other.now) }
    {
        match (self, other) {
            (Command::MakeGroup(path), Command::MakeGroup(other)) => is_same_path(path, other),
            (Command::RemoveGroup(path), Command::RemoveGroup(other)) => is_same_path(path, other),
            (
                Command::Fork { parent, child },
                Command::Fork {
                    parent: other_parent,
                    child: other_child,
                },
            ) => parent.get() == other_parent.get() && child.get() == other_child.get(),
            (Command::Exit(pid), Command::Exit(other)) => pid.get() == other.get(),
            (
                Command::Move { path, pid },
                Command::Move {
                    path: other_path,
                    pid: other_pid,
                },
            ) => is_same_path(path, other_path) && pid.get() == other_pid.get(),
            (
                Command::SetLimit { path, file, value },
                Command::SetLimit {
                    path: other_path,
                    file: other_file,
                    value: other_value,
                },
            ) => {
                is_same_path(path, other_path)
                    && is_same_limit_file(*file, *other_file)
                    && is_same_limit(*value, *other_value)
            }
            (Command::Kill(path), Command::Kill(other)) => is_same_path(path, other),
            (
                Command::Show { path, file },
                Command::Show {
                    path: other_path,
                    file: other_file,
                },
            ) => is_same_path(path, other_path) && is_same_file(*file, *other_file),
            (Command::Locate(pid), Command::Locate(other)) => pid.get() == other.get(),
            (Command::Undo, Command::Undo) => true,
            _ => false,
        }
    }
}

impl<A: Allocator + Clone> Refusal<A> {
    /// Whether the other refusal has the same cause. Linear in its path.
    pub fn is<B: Allocator + Clone>(&self, other: &Refusal<B>) -> bool
        ensures { IsTrue result ↔ (refusal_of self.now ≡ refusal_of other.now) }
    {
        match (self, other) {
            (Refusal::Exists, Refusal::Exists) => true,
            (Refusal::NoGroup(path), Refusal::NoGroup(other)) => is_same_path(path, other),
            (Refusal::Descendants(path), Refusal::Descendants(other)) => is_same_path(path, other),
            (Refusal::Depth(path), Refusal::Depth(other)) => is_same_path(path, other),
            (Refusal::NoSlot, Refusal::NoSlot) => true,
            (Refusal::RootFixed, Refusal::RootFixed) => true,
            (Refusal::HasChildren, Refusal::HasChildren) => true,
            (Refusal::HasProcesses, Refusal::HasProcesses) => true,
            (Refusal::NoProcess(pid), Refusal::NoProcess(other)) => pid.get() == other.get(),
            (Refusal::PidInUse(pid), Refusal::PidInUse(other)) => pid.get() == other.get(),
            (Refusal::PidsMax(path), Refusal::PidsMax(other)) => is_same_path(path, other),
            (Refusal::NoFile, Refusal::NoFile) => true,
            (Refusal::NotReadable, Refusal::NotReadable) => true,
            _ => false,
        }
    }
}

impl<A: Allocator + Clone> Reply<A> {
    /// Whether the other reply means the same. Linear in its text or path.
    pub fn is<B: Allocator + Clone>(&self, other: &Reply<B>) -> bool
        ensures { IsTrue result ↔ (reply_of self.now ≡ reply_of other.now) }
    {
        match (self, other) {
            (Reply::Done, Reply::Done) => true,
            (Reply::Text(text), Reply::Text(other)) => text.as_slice() == other.as_slice(),
            (Reply::Undone(command), Reply::Undone(other)) => command.is(other),
            (Reply::Refused(refusal), Reply::Refused(other)) => refusal.is(other),
            (Reply::NothingToUndo, Reply::NothingToUndo) => true,
            (Reply::OutOfMemory, Reply::OutOfMemory) => true,
            _ => false,
        }
    }
}
