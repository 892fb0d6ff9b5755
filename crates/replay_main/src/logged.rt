//! Whether entries of a log are those of given commands, each run by the session whose turn it was.

ghost use Rattle.std.specs.Prelude.{◌≡◌, ◌+◌, ◌<◌, ◌^◌, length, map, IsTrue};
ghost use Rattle.undo_journal.specs.CommandMeaning.{command_of};
ghost use Rattle.replay_main.specs.Script.{AreLogged};
ghost use Rattle.replay_main.specs.WorkerTurns.{TakesTurns};

use sessions::Entry;
use std::alloc::Global;
use undo_journal::Command;

/// Whether these entries, the first of which is at this turn, are those of these commands, each run
/// by the session whose turn it was.
pub(crate) fn are_logged(
    workers: usize,
    turn: usize,
    commands: &[Command<Global>],
    entries: &[Entry],
) -> bool
    requires workers { 0 < workers }
    requires turn { turn < 2 ^ 60 }
    ensures { IsTrue result → AreLogged workers turn (map command_of commands.now) entries.now }
{
    has_commands(entries, commands) && takes_turns(workers, turn, entries)
}

/// Whether the commands of these entries are these, in their order.
fn has_commands(entries: &[Entry], commands: &[Command<Global>]) -> bool
    ensures { IsTrue result → map (λ e. e.command) entries.now ≡ map command_of commands.now }
{
    if entries.len() != commands.len() {
        return false;
    }
    for i in 0..entries.len() {
        if !is_of(&entries[i], &commands[i]) {
            return false;
        }
    }
    true
}

/// Whether this is an entry of the command.
fn is_of(entry: &Entry, command: &Command<Global>) -> bool
    ensures { IsTrue result → entry.now.command ≡ command_of command.now }
{
    entry.command.is(command)
}

/// Whether the i-th of these entries is of session (turn + i) mod `workers`.
fn takes_turns(workers: usize, turn: usize, entries: &[Entry]) -> bool
    requires workers { 0 < workers }
    requires turn { turn < 2 ^ 60 }
    ensures { IsTrue result → TakesTurns workers turn entries.now }
{
    for i in 0..entries.len() {
        let entry = &entries[i];
        if usize::from(entry.session) != (turn + i) % workers {
            return false;
        }
    }
    true
}
