//! `undo`: undoing the newest recorded command by its record, or all of them one after another.

ghost use Rattle.std.specs.Prelude.{◌≡◌, true, Some, IsOk, OnOk, OnErr, IfOk};
ghost use Rattle.flat_model.specs.Command as model;
ghost use Rattle.flat_model.specs.Inverse.{back};
ghost use Rattle.flat_model.specs.Machine.{tick};
ghost use Rattle.undo_journal.specs.CommandMeaning.{inverse_of};
ghost use Rattle.undo_journal.specs.Answer.{Answers, needs_no_memory, undoes_without_memory};
ghost use Rattle.undo_journal.specs.Headline.{UndoesAll};
ghost use Rattle.undo_journal.specs.History.{IsReady};
ghost use Rattle.undo_journal.specs.Timeline.{becomes};

use crate::engine::Engine;
use crate::exit::undo_exit;
use crate::fork::{undo_counted, undo_fork};
use crate::inverse::Inverse;
use crate::kill::undo_kill;
use crate::limit::undo_limit;
use crate::migrate::undo_move;
use crate::mkdir::undo_mkdir;
use crate::reply::Reply;
use crate::rmdir::undo_rmdir;
use pids_charge::{Charges, Meter, OpenGate, Settler, with_threads};
use std::alloc::{AllocError, Allocator};
use std::sync::Wait;
use std::thread::Threads;

/// Undoes one command by its record.
fn take_back<A: Allocator + Clone, M: Meter, S: Settler>(
    charges: &mut Charges<A, M>,
    settler: &S,
    who: u8,
    inverse: &Inverse<A>,
) -> Result<(), AllocError>
    requires { IsReady M.SLOTS charges.old (inverse_of inverse.now) }
    ensures ok { OnOk result (charges.new ≡ back (inverse_of inverse.now) charges.old) }
    ensures err { OnErr result (charges.new ≡ charges.old) }
    ensures certain { needs_no_memory (Some (inverse_of inverse.now)) ≡ true → IsOk result }
{
    match inverse {
        Inverse::Made { path } => {
            undo_mkdir(charges, path);
            Ok(())
        }
        Inverse::Removed { path, attr } => undo_rmdir(charges, path, **attr),
        Inverse::Forked { pid, peaks } => {
            undo_fork(charges, who, *pid, peaks);
            Ok(())
        }
        Inverse::Exited { pid, path } => undo_exit(charges, who, *pid, path),
        Inverse::Moved { pid, path, peaks } => undo_move(charges, who, *pid, path, peaks),
        Inverse::Limited { path, file, value } => {
            undo_limit(charges, path, *file, *value);
            Ok(())
        }
        Inverse::Counted { path } => {
            undo_counted(charges, path);
            Ok(())
        }
        Inverse::Killed { list } => undo_kill(charges, settler, who, list),
    }
}

impl<A: Allocator + Clone, M: Meter> Engine<A, M> {
    pub(crate) fn take_newest_back<S: Settler>(
        &mut self,
        settler: &S,
        who: u8,
    ) -> Result<Reply<A>, AllocError>
        ensures ok { IfOk result (λ reply. Answers M.SLOTS self.old model.Undo reply self.new) }
        ensures err { OnErr result (self.new ≡ self.old) }
        ensures certain { undoes_without_memory M.SLOTS self.old.machine.past ≡ true → IsOk result }
    {
        let Some(entry) = self.journal.last() else {
            return Ok(Reply::NothingToUndo);
        };
        take_back(&mut self.charges, settler, who, &entry.inverse)?;
        let Some(newest) = self.journal.pop() else {
            unreachable!()
        };
        Ok(Reply::Undone(newest.command))
    }

    /// Undoes the newest recorded command, if there is one.
    fn undo_one<S: Settler>(&mut self, settler: &S, who: u8) -> Result<(), AllocError>
        ensures ok { OnOk result (self.new ≡ becomes self.old (tick M.SLOTS self.old.machine model.Undo).0) }
        ensures err { OnErr result (self.new ≡ self.old) }
    {
        let _undone = self.take_newest_back(settler, who)?;
        Ok(())
    }

    /// Undoes all recorded commands, newest first, and returns how many there were. This leaves the state before the
    /// oldest of them: the root with process 1 in it, if the engine has never forgotten. Undoing a kill may wait for
    /// the threads that settle parts of its charges. Costs as much as that many undos.
    ///
    /// # Errors
    ///
    /// When out of memory, with the number of commands undone so far. The others stay recorded, and can be undone
    /// later.
    pub fn undo_all<R: Threads + Wait + Sync>(
        &mut self,
        rt: &R,
        who: u8,
    ) -> Result<usize, (usize, AllocError)>
        ensures { UndoesAll M.SLOTS self.old result self.new }
    {
        self.known();
        let settler = with_threads(rt, &OpenGate);
        let depth = self.depth();
        for undone in 0..depth {
            if let Err(error) = self.undo_one(&settler, who) {
                return Err((undone, error));
            }
        }
        Ok(depth)
    }
}
