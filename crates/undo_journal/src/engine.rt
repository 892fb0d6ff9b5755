//! The engine: answering one command, undoing one, and what is recorded.

ghost use Rattle.std.specs.Prelude.{◌≡◌, ◌≢◌, [], true, None, IfOk, OnErr, MatchOption, length, option_map};
ghost use Rattle.flat_model.specs.Command as model;
ghost use Rattle.flat_model.specs.Machine.{new_machine};
ghost use Rattle.pids_charge.specs.Content.{IsEmpty};
ghost use Rattle.undo_journal.specs.CommandMeaning.{command_of, inverse_of, reply_of};
ghost use Rattle.undo_journal.specs.Answer.{Answers, IsNewest, newest_command, undoes_without_memory};
ghost use Rattle.undo_journal.specs.Headline.{KeepsHistory, IsReached};
ghost use Rattle.undo_journal.specs.Timeline.{from_start};

use crate::command::Command;
use crate::inverse::Inverse;
use crate::journal::JournalEntry;
use crate::reply::Reply;
use pids_charge::{Alone, Charges, Gate, Meter, OpenGate, Settler, with_threads};
use std::alloc::{AllocError, Allocator};
use std::marker::Model;
use std::sync::Wait;
use std::thread::Threads;

/// The groups and processes with their charges, the journal of the recorded commands, newest last, and how many
/// recorded commands were forgotten. That number stops at the greatest `u64`.
#[derive(Drop)]
pub struct Engine<A: Allocator + Clone, M: Meter> {
    pub(crate) alloc: A,
    pub(crate) charges: Charges<A, M>,
    pub(crate) journal: Vec<JournalEntry<A>, A>,
    pub(crate) forgotten: u64,
}

impl<A: Allocator + Clone, M: Meter> Model for Engine<A, M> {
    ghost use Rattle.std.specs.Coded.{codes};
    ghost use Rattle.flat_model.specs.StateCodes.{state_code};
    ghost use Rattle.undo_journal.specs.Timeline.{Timeline};

    ghost Value = { Timeline };

    ghost coded = { Prim.hlevel (codes, state_code) };

    ghost use Rattle.undo_journal.specs.History.{timeline_of, records, IsHistory};

    ghost view = { λ e. timeline_of e.forgotten e.charges e.journal.items };

    ghost invariant = { λ e. IsHistory M.SLOTS e.forgotten e.charges (records e.journal.items) };
}

/// The reply; out of memory for an error.
pub(crate) fn or_out_of_memory<A: Allocator + Clone>(
    answer: Result<Reply<A>, AllocError>,
) -> Reply<A>
    ensures ok { IfOk answer (λ reply. result ≡ reply) }
    ensures err { OnErr answer (reply_of result ≡ None) }
{
    match answer {
        Ok(reply) => reply,
        Err(_) => Reply::OutOfMemory,
    }
}

impl<A: Allocator + Clone, M: Meter + Drop> Engine<A, M> {
    /// Creates an engine over an empty meter. Its hierarchy has only the root, with process 1 in it. It allocates the
    /// root, the table of processes, and tables of the meter's free slots and of hints.
    ///
    /// # Errors
    ///
    /// `AllocError` when out of memory. The meter is dropped then.
    pub fn new(alloc: A, meter: M) -> Result<Engine<A, M>, AllocError>
        requires { IsEmpty (M.content meter) (M.held meter) }
        ensures { IfOk result (λ e. e ≡ from_start new_machine) }
    {
        let charges = Charges::new(alloc.clone()?, meter)?;
        let journal = Vec::new(alloc.clone()?);
        Ok(Engine {
            alloc,
            charges,
            journal,
            forgotten: 0,
        })
    }
}

impl<A: Allocator + Clone, M: Meter> Engine<A, M> {
    /// Answers one command that the session `who` has issued. A kill, or an undo of one, may wait for the threads that
    /// settle parts of its charges.
    ///
    /// Costs O(depth · log children) comparisons, where `depth` is that of the group or of the process's group; a process
    /// is found in constant time. `mkdir` and `rmdir` also shift the siblings that come after the group. A kill costs
    /// time in the number of its processes, plus a look at each row of a group, and a walk up from each that has processes.
    pub fn apply<R: Threads + Wait + Sync, B: Allocator + Clone>(
        &mut self,
        rt: &R,
        who: u8,
        cmd: &Command<B>,
    ) -> Reply<A>
        // The engine makes the machine's step, and gives the machine's reply.
        ensures answered { reply_of result ≢ None → Answers M.SLOTS self.old (command_of cmd.now) result self.new }

        // Recorded commands can be undone, one or a whole run. The counts match the processes, and no peak is below a
        // count.
        ensures headline { reply_of result ≢ None → KeepsHistory M.SLOTS self.old (command_of cmd.now) self.new }

        // When out of memory, nothing has changed.
        ensures refused { reply_of result ≡ None → self.new ≡ self.old }

        // Undoing a new group, a new process, a limit or a counted fork allocates nothing.
        ensures certain { command_of cmd.now ≡ model.Undo → undoes_without_memory M.SLOTS self.old.machine.past ≡ true → reply_of result ≢ None }
    {
        self.apply_gated(rt, &OpenGate, who, cmd)
    }

    /// `apply`, where each part of the settlement of a kill, or of an undo of one, first calls the test hook. The hook
    /// may block.
    pub fn apply_gated<R: Threads + Wait + Sync, B: Allocator + Clone>(
        &mut self,
        rt: &R,
        gate: &(dyn Gate + Sync),
        who: u8,
        cmd: &Command<B>,
    ) -> Reply<A>
        ensures answered { reply_of result ≢ None → Answers M.SLOTS self.old (command_of cmd.now) result self.new }
        ensures headline { reply_of result ≢ None → KeepsHistory M.SLOTS self.old (command_of cmd.now) self.new }
        ensures refused { reply_of result ≡ None → self.new ≡ self.old }
        ensures certain { command_of cmd.now ≡ model.Undo → undoes_without_memory M.SLOTS self.old.machine.past ≡ true → reply_of result ≢ None }
    {
        let reply = self.answer(&with_threads(rt, gate), who, cmd);
        self.known();
        reply
    }

    /// `apply` on the calling thread: starts no thread, and waits for none.
    pub fn apply_alone<B: Allocator + Clone>(&mut self, who: u8, cmd: &Command<B>) -> Reply<A>
        ensures answered { reply_of result ≢ None → Answers M.SLOTS self.old (command_of cmd.now) result self.new }
        ensures headline { reply_of result ≢ None → KeepsHistory M.SLOTS self.old (command_of cmd.now) self.new }
        ensures refused { reply_of result ≡ None → self.new ≡ self.old }
        ensures certain { command_of cmd.now ≡ model.Undo → undoes_without_memory M.SLOTS self.old.machine.past ≡ true → reply_of result ≢ None }
    {
        let reply = self.answer(&Alone, who, cmd);
        self.known();
        reply
    }

    /// Undoes the newest recorded command, whichever session issued it. It checks no limit and is not recorded. Undoing
    /// a kill may wait for the threads that settle parts of its charges. Costs no more than the command did.
    pub fn undo<R: Threads + Wait + Sync>(&mut self, rt: &R, who: u8) -> Reply<A>
        ensures answered { reply_of result ≢ None → Answers M.SLOTS self.old model.Undo result self.new }
        ensures headline { reply_of result ≢ None → KeepsHistory M.SLOTS self.old model.Undo self.new }
        ensures refused { reply_of result ≡ None → self.new ≡ self.old }

        // Undoing a new group, a new process, a limit or a counted fork allocates nothing.
        ensures certain { undoes_without_memory M.SLOTS self.old.machine.past ≡ true → reply_of result ≢ None }
    {
        let reply = or_out_of_memory(self.take_newest_back(&with_threads(rt, &OpenGate), who));
        self.known();
        reply
    }

    /// `undo` on the calling thread.
    pub fn undo_alone(&mut self, who: u8) -> Reply<A>
        ensures answered { reply_of result ≢ None → Answers M.SLOTS self.old model.Undo result self.new }
        ensures headline { reply_of result ≢ None → KeepsHistory M.SLOTS self.old model.Undo self.new }
        ensures refused { reply_of result ≡ None → self.new ≡ self.old }
        ensures certain { undoes_without_memory M.SLOTS self.old.machine.past ≡ true → reply_of result ≢ None }
    {
        let reply = or_out_of_memory(self.take_newest_back(&Alone, who));
        self.known();
        reply
    }

    /// The record of the newest recorded command.
    pub fn newest(&self) -> Option<&Inverse<A>>
        ensures { MatchOption result (self.now.machine.past ≡ []) (λ inverse. IsNewest M.SLOTS self.now.machine.state self.now.machine.past (inverse_of inverse.now)) }
    {
        match self.journal.last() {
            Some(entry) => Some(&entry.inverse),
            None => None,
        }
    }

    /// The newest recorded command, which `undo` would undo.
    pub fn newest_command(&self) -> Option<&Command<A>>
        ensures { option_map (λ command. command_of command.now) result ≡ newest_command self.now.machine.past }
    {
        match self.journal.last() {
            Some(entry) => Some(&entry.command),
            None => None,
        }
    }

    /// How many recorded commands can be undone.
    pub fn depth(&self) -> usize
        ensures { result ≡ length self.now.machine.past }
    {
        self.journal.len()
    }

    /// The groups and processes, for reading.
    pub fn charges(&self) -> &Charges<A, M>
        ensures { result.now ≡ self.now.machine.state }
    {
        &self.charges
    }

    fn answer<S: Settler, B: Allocator + Clone>(
        &mut self,
        settler: &S,
        who: u8,
        cmd: &Command<B>,
    ) -> Reply<A>
        ensures answered { reply_of result ≢ None → Answers M.SLOTS self.old (command_of cmd.now) result self.new }
        ensures refused { reply_of result ≡ None → self.new ≡ self.old }
        ensures certain { command_of cmd.now ≡ model.Undo → undoes_without_memory M.SLOTS self.old.machine.past ≡ true → reply_of result ≢ None }
    {
        match cmd {
            Command::MakeGroup(path) => or_out_of_memory(self.make_group(path)),
            Command::RemoveGroup(path) => or_out_of_memory(self.remove_group(path)),
            Command::Fork { parent, child } => or_out_of_memory(self.fork(who, *parent, *child)),
            Command::Exit(pid) => or_out_of_memory(self.exit(who, *pid)),
            Command::Move { path, pid } => or_out_of_memory(self.move_process(who, path, *pid)),
            Command::SetLimit { path, file, value } => {
                or_out_of_memory(self.set_limit(path, *file, *value))
            }
            Command::Kill(path) => or_out_of_memory(self.kill(settler, who, path)),
            Command::Show { path, file } => or_out_of_memory(self.show(path, *file)),
            Command::Locate(pid) => or_out_of_memory(self.locate(*pid)),
            Command::Undo => or_out_of_memory(self.take_newest_back(settler, who)),
        }
    }

    /// Makes the invariant of the engine visible to the prover. It is proof only.
    pub(crate) fn known(&self)
        ensures { IsReached M.SLOTS self.now }
    {
        let _ = &self.journal;
    }
}
