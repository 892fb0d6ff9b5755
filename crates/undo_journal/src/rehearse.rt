//! A rehearsal: the replies that an engine would give, found on a copy of it.

ghost use Rattle.std.specs.Prelude.{◌≡◌, IfOk, Some, map};
ghost use Rattle.flat_model.specs.Machine.{replies};
ghost use Rattle.undo_journal.specs.CommandMeaning.{command_of, reply_of};
ghost use Rattle.undo_journal.specs.Answer.{Answers};
ghost use Rattle.undo_journal.specs.History.{journal_entry};

use crate::command::Command;
use crate::engine::Engine;
use crate::journal::JournalEntry;
use crate::reply::Reply;
use pids_charge::{Meter, PlainMeter};
use std::alloc::{AllocError, Allocator, Global};
use std::sync::Wait;
use std::thread::Threads;

fn copy_entry<A: Allocator + Clone, B: Allocator + Clone>(
    entry: &JournalEntry<A>,
    alloc: B,
) -> Result<JournalEntry<B>, AllocError>
    ensures { IfOk result (λ e. journal_entry e ≡ journal_entry entry.now) }
{
    let command = entry.command.copy(alloc.clone()?)?;
    let inverse = entry.inverse.copy(alloc)?;
    Ok(JournalEntry { command, inverse })
}

// Copies the entries, in the same order.
fn copy_journal<A: Allocator + Clone, B: Allocator + Clone>(
    journal: &[JournalEntry<A>],
    alloc: B,
) -> Result<Vec<JournalEntry<B>, B>, AllocError>
    ensures { IfOk result (λ entries. map journal_entry entries.items ≡ map journal_entry journal.now) }
{
    let mut entries = Vec::with_capacity(alloc.clone()?, journal.len())?;
    for entry in journal {
        entries.push(copy_entry(entry, alloc.clone()?)?)?;
    }
    Ok(entries)
}

impl<A: Allocator + Clone, M: Meter> Engine<A, M> {
    /// Copies groups, processes and journal into another allocator, over plain numbers. This engine's meter must have as
    /// many slots as a `PlainMeter`. Costs time and memory linear in the size of the engine.
    ///
    /// # Errors
    ///
    /// `AllocError` when out of memory. What was copied is dropped then.
    pub fn copy<B: Allocator + Clone>(
        &self,
        alloc: B,
    ) -> Result<Engine<B, PlainMeter<B>>, AllocError>
        requires { M.SLOTS ≡ ⟦<PlainMeter<B> as Meter>⟧.SLOTS }
        ensures { IfOk result (λ e. e ≡ self.now) }
    {
        let charges = self.charges.copy_plain(alloc.clone()?)?;
        let journal = copy_journal(self.journal.as_slice(), alloc.clone()?)?;
        Ok(Engine {
            alloc,
            charges,
            journal,
            forgotten: self.forgotten,
        })
    }

    /// Answers one command, with the reply in another allocator. Out of memory is an `Err`.
    fn answer_in<R: Threads + Wait + Sync, B: Allocator + Clone, C: Allocator + Clone>(
        &mut self,
        rt: &R,
        out: C,
        cmd: &Command<B>,
    ) -> Result<Reply<C>, AllocError>
        ensures { IfOk result (λ reply. Answers M.SLOTS self.old (command_of cmd.now) reply self.new) }
    {
        let reply = self.apply(rt, 0, cmd);
        if matches!(reply, Reply::OutOfMemory) {
            return Err(AllocError);
        }
        reply.copy(out)
    }

    /// Returns the replies that `apply` would give to these commands in turn, undos included. Runs them on a copy in
    /// the arena, over a `PlainMeter`, and copies each reply out of it. The copy is dropped at the end, and this engine
    /// is unchanged. Its meter must have as many slots as a `PlainMeter`. A kill, or an undo of one, may wait as in
    /// `apply`. Costs as much as copying the engine and answering the commands.
    ///
    /// # Errors
    ///
    /// `AllocError` if the copy, a command or a reply ran out of memory.
    pub fn rehearse<R: Threads + Wait + Sync, B: Allocator + Clone>(
        &self,
        rt: &R,
        out: Global,
        arena: B,
        cmds: &[Command<A>],
    ) -> Result<Vec<Reply<Global>>, AllocError>
        requires { M.SLOTS ≡ ⟦<PlainMeter<B> as Meter>⟧.SLOTS }
        ensures { IfOk result (λ said. map reply_of said.items ≡ map Some (replies M.SLOTS self.now.machine (map command_of cmds.now))) }
    {
        let mut copy = self.copy(arena)?;
        let mut said = Vec::new(out);
        for cmd in cmds {
            said.push(copy.answer_in(rt, out, cmd)?)?;
        }
        Ok(said)
    }
}
