//! The command of a line, by its words. The number of words is tested first, then the path, the
//! file, the direction and the value.

ghost use Rattle.std.specs.Prelude.{◌≡◌};
ghost use Rattle.flat_model.specs.Trace.{path_word, mkdir_of, rmdir_of, fork_of, exit_of, write_words, cat_of, where_of, undo_of, command_of_words};
ghost use Rattle.undo_journal.specs.CommandMeaning.{command_of};
ghost use Rattle.trace_lines.specs.Action.{command_at, ReadsAction};
ghost use Rattle.trace_lines.specs.LineMeaning.{ReadsPath, ReadsCommand};

use crate::TextFault;
use crate::action::{Action, read_shown, read_written};
use crate::fault::Unread;
use crate::words::{Words, is_word, one_word, three_words, two_words};
use group_path::{GroupPath, PathFault};
use interface_files::read_pid;
use std::alloc::Global;
use undo_journal::Command;

fn read_path(alloc: Global, word: &[u8]) -> Result<GroupPath<Global>, Unread>
    ensures { ReadsPath result (path_word word.now) }
{
    match GroupPath::read(alloc, word) {
        Ok(path) => Ok(path),
        Err(PathFault::OutOfMemory) => Err(Unread::OutOfMemory),
        Err(_) => Err(Unread::Fault(TextFault::Path)),
    }
}

fn read_mkdir(alloc: Global, rest: Words<'_>) -> Result<Command<Global>, Unread>
    ensures { ReadsCommand result (mkdir_of rest.entry) }
{
    let Some(path) = one_word(rest) else {
        return Err(Unread::Fault(TextFault::Syntax));
    };
    let path = read_path(alloc, path)?;
    Ok(Command::MakeGroup(path))
}

fn read_rmdir(alloc: Global, rest: Words<'_>) -> Result<Command<Global>, Unread>
    ensures { ReadsCommand result (rmdir_of rest.entry) }
{
    let Some(path) = one_word(rest) else {
        return Err(Unread::Fault(TextFault::Syntax));
    };
    let path = read_path(alloc, path)?;
    Ok(Command::RemoveGroup(path))
}

fn read_fork(rest: Words<'_>) -> Result<Command<Global>, Unread>
    ensures { ReadsCommand result (fork_of rest.entry) }
{
    let Some((parent, child)) = two_words(rest) else {
        return Err(Unread::Fault(TextFault::Syntax));
    };
    let Ok(parent) = read_pid(parent) else {
        return Err(Unread::Fault(TextFault::Value));
    };
    let Ok(child) = read_pid(child) else {
        return Err(Unread::Fault(TextFault::Value));
    };
    Ok(Command::Fork { parent, child })
}

fn read_exit(rest: Words<'_>) -> Result<Command<Global>, Unread>
    ensures { ReadsCommand result (exit_of rest.entry) }
{
    let Some(pid) = one_word(rest) else {
        return Err(Unread::Fault(TextFault::Syntax));
    };
    let Ok(pid) = read_pid(pid) else {
        return Err(Unread::Fault(TextFault::Value));
    };
    Ok(Command::Exit(pid))
}

/// The command of an action on a path.
fn command_at(path: GroupPath<Global>, action: Action) -> Command<Global>
    ensures { command_of result ≡ command_at path action }
{
    match action {
        Action::Move(pid) => Command::Move { path, pid },
        Action::SetLimit(file, value) => Command::SetLimit { path, file, value },
        Action::Kill => Command::Kill(path),
        Action::Show(file) => Command::Show { path, file },
    }
}

/// The command of an action on a path. A fault of the path comes first, then a fault of the action,
/// then out of memory for the path.
fn read_action(
    path: Result<GroupPath<Global>, Unread>,
    action: Result<Action, TextFault>,
) -> Result<Command<Global>, Unread>
    ensures { ReadsAction path action result }
{
    match path {
        Ok(path) => match action {
            Ok(action) => Ok(command_at(path, action)),
            Err(fault) => Err(Unread::Fault(fault)),
        },
        Err(Unread::Fault(fault)) => Err(Unread::Fault(fault)),
        Err(Unread::OutOfMemory) => match action {
            Ok(_) => Err(Unread::OutOfMemory),
            Err(fault) => Err(Unread::Fault(fault)),
        },
    }
}

fn read_write(alloc: Global, rest: Words<'_>) -> Result<Command<Global>, Unread>
    ensures { ReadsCommand result (write_words rest.entry) }
{
    let Some((path, file, value)) = three_words(rest) else {
        return Err(Unread::Fault(TextFault::Syntax));
    };
    let action = read_written(file, value);
    let path = read_path(alloc, path);
    read_action(path, action)
}

fn read_cat(alloc: Global, rest: Words<'_>) -> Result<Command<Global>, Unread>
    ensures { ReadsCommand result (cat_of rest.entry) }
{
    let Some((path, file)) = two_words(rest) else {
        return Err(Unread::Fault(TextFault::Syntax));
    };
    let action = read_shown(file);
    let path = read_path(alloc, path);
    read_action(path, action)
}

fn read_where(rest: Words<'_>) -> Result<Command<Global>, Unread>
    ensures { ReadsCommand result (where_of rest.entry) }
{
    let Some(pid) = one_word(rest) else {
        return Err(Unread::Fault(TextFault::Syntax));
    };
    let Ok(pid) = read_pid(pid) else {
        return Err(Unread::Fault(TextFault::Value));
    };
    Ok(Command::Locate(pid))
}

fn read_undo(rest: Words<'_>) -> Result<Command<Global>, Unread>
    ensures { ReadsCommand result (undo_of rest.entry) }
{
    let mut rest = rest;
    match rest.next() {
        Some(_) => Err(Unread::Fault(TextFault::Syntax)),
        None => Ok(Command::Undo),
    }
}

/// The command of the first word and those after it.
#[tactic(auto, unfolding(flat_model::specs::Trace::command_of_words))]
pub(crate) fn read_command(
    alloc: Global,
    first: &[u8],
    rest: Words<'_>,
) -> Result<Command<Global>, Unread>
    ensures { ReadsCommand result (command_of_words first.now rest.entry) }
{
    if is_word(first, b"mkdir") {
        return read_mkdir(alloc, rest);
    }
    if is_word(first, b"rmdir") {
        return read_rmdir(alloc, rest);
    }
    if is_word(first, b"fork") {
        return read_fork(rest);
    }
    if is_word(first, b"exit") {
        return read_exit(rest);
    }
    if is_word(first, b"write") {
        return read_write(alloc, rest);
    }
    if is_word(first, b"cat") {
        return read_cat(alloc, rest);
    }
    if is_word(first, b"where") {
        return read_where(rest);
    }
    if is_word(first, b"undo") {
        return read_undo(rest);
    }
    Err(Unread::Fault(TextFault::Syntax))
}
