//! What a `write` or a `cat` does to a file of a group, by the words after the path.

ghost use Rattle.std.specs.Prelude.{◌≡◌};
ghost use Rattle.flat_model.specs.Path.{Path};
ghost use Rattle.flat_model.specs.Trace.{show_of, write_of};
ghost use Rattle.interface_files.specs.FileMeaning.{file_of};
ghost use Rattle.trace_lines.specs.Action.{action_at, show_at, write_at};

use crate::TextFault;
use group_tree::{Limit, LimitFile};
use interface_files::{File, Written, read_kill, read_limit, read_pid};
use pids_charge::Pid;

/// A command that names a file, without its path.
#[derive(Clone, Copy)]
pub(crate) enum Action {
    /// Moves the process to the group.
    Move(Pid),
    /// Sets the limit of the group.
    SetLimit(LimitFile, Limit),
    /// Kills the processes of the group and below it.
    Kill,
    /// Shows the file of the group.
    Show(File),
}

/// The effect of writing a value to a file. A file that can't be written is reported before a fault
/// of the value.
fn write_value(file: File, value: &[u8]) -> Result<Action, TextFault>
    ensures { (path : Path) → action_at path result ≡ write_of path (file_of file) value.now }
{
    match file.written() {
        Some(Written::Pid) => match read_pid(value) {
            Ok(pid) => Ok(Action::Move(pid)),
            Err(_) => Err(TextFault::Value),
        },
        Some(Written::Limit(limit)) => match read_limit(limit, value) {
            Ok(most) => Ok(Action::SetLimit(limit, most)),
            Err(_) => Err(TextFault::Value),
        },
        Some(Written::Kill) => match read_kill(value) {
            Ok(()) => Ok(Action::Kill),
            Err(_) => Err(TextFault::Value),
        },
        None => Err(TextFault::Direction),
    }
}

fn show_file(file: File) -> Result<Action, TextFault>
    ensures { (path : Path) → action_at path result ≡ show_of path (file_of file) }
{
    if file.readable() {
        Ok(Action::Show(file))
    } else {
        Err(TextFault::Direction)
    }
}

/// The effect of a `write`, by the words after its path.
pub(crate) fn read_written(file: &[u8], value: &[u8]) -> Result<Action, TextFault>
    ensures { (path : Path) → action_at path result ≡ write_at path file.now value.now }
{
    match File::read(file) {
        Some(file) => write_value(file, value),
        None => Err(TextFault::File),
    }
}

/// The effect of a `cat`, by the word after its path.
pub(crate) fn read_shown(file: &[u8]) -> Result<Action, TextFault>
    ensures { (path : Path) → action_at path result ≡ show_at path file.now }
{
    match File::read(file) {
        Some(file) => show_file(file),
        None => Err(TextFault::File),
    }
}
