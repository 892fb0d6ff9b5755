//! One step of the machine, with two copies of its reply: for the log and for the receipt.

ghost use Rattle.std.specs.Prelude.{◌≡◌, ◌≢◌, IfOk, OnOk, OnErr, Some, None, true, false};
ghost use Rattle.flat_model.specs.Command as model;
ghost use Rattle.flat_model.specs.Command.{is_undo};
ghost use Rattle.flat_model.specs.Machine.{tick};
ghost use Rattle.undo_journal.specs.CommandMeaning.{command_of, reply_of};
ghost use Rattle.undo_journal.specs.Answer.{undoes_without_memory};
ghost use Rattle.undo_journal.specs.Timeline.{becomes};
ghost use Rattle.sessions.specs.SessionMeaning.{slots};
ghost use Rattle.sessions.specs.Served.{AnswersTwice};

use crate::book::DeskEngine;
use std::alloc::{AllocError, Allocator, Global};
use std::sync::Wait;
use std::thread::Threads;
use undo_journal::{Command, Reply};

/// Answers a command of a session. If out of memory, the engine is unchanged.
pub(crate) fn answer_twice<R: Threads + Wait + Sync, B: Allocator + Clone>(
    rt: &R,
    alloc: Global,
    engine: &mut DeskEngine,
    who: u8,
    cmd: &Command<B>,
) -> Result<(Reply<Global>, Reply<Global>), AllocError>
    ensures ok { IfOk result (λ r. AnswersTwice engine.old (command_of cmd.now) r.0 r.1 engine.new) }
    ensures err { OnErr result (engine.new ≡ engine.old) }
{
    match cmd {
        Command::Undo => undo_twice(rt, alloc, engine, who),
        _ => apply_twice(rt, alloc, engine, who, cmd),
    }
}

/// Answers any command but an undo. If the reply of a counted fork can't be copied, the fork is
/// undone.
fn apply_twice<R: Threads + Wait + Sync, B: Allocator + Clone>(
    rt: &R,
    alloc: Global,
    engine: &mut DeskEngine,
    who: u8,
    cmd: &Command<B>,
) -> Result<(Reply<Global>, Reply<Global>), AllocError>
    requires { is_undo (command_of cmd.now) ≡ false }
    ensures ok { IfOk result (λ r. AnswersTwice engine.old (command_of cmd.now) r.0 r.1 engine.new) }
    ensures err { OnErr result (engine.new ≡ engine.old) }
{
    let depth = engine.depth();
    let reply = engine.apply(rt, who, cmd);
    match copy_of(alloc, &reply) {
        Ok(again) => Ok((reply, again)),
        Err(refused) => {
            if engine.depth() > depth {
                undo_newest(rt, engine, who);
            }
            Err(refused)
        }
    }
}

/// Undoes the newest recorded command, of a kind whose undo allocates nothing.
fn undo_newest<R: Threads + Wait + Sync>(rt: &R, engine: &mut DeskEngine, who: u8)
    requires { undoes_without_memory slots engine.old.machine.past ≡ true }
    ensures { engine.new ≡ becomes engine.old (tick slots engine.old.machine model.Undo).0 }
{
    drop(engine.undo(rt, who));
}

/// Copies a reply.
fn copy_of(alloc: Global, reply: &Reply<Global>) -> Result<Reply<Global>, AllocError>
    ensures same { IfOk result (λ r. reply_of r ≡ reply_of reply.now) }
    ensures answered { OnOk result (reply_of reply.now ≢ None) }
    ensures other { OnErr result (reply_of reply.now ≢ Some model.Done) }
{
    match reply {
        Reply::Done => Ok(Reply::Done),
        Reply::OutOfMemory => Err(AllocError),
        _ => reply.copy(alloc),
    }
}

/// Answers an undo. Its reply is copied before the undo is run.
fn undo_twice<R: Threads + Wait + Sync>(
    rt: &R,
    alloc: Global,
    engine: &mut DeskEngine,
    who: u8,
) -> Result<(Reply<Global>, Reply<Global>), AllocError>
    ensures ok { IfOk result (λ r. AnswersTwice engine.old model.Undo r.0 r.1 engine.new) }
    ensures err { OnErr result (engine.new ≡ engine.old) }
{
    let again = answer_to_undo(alloc, engine)?;
    match engine.undo(rt, who) {
        Reply::OutOfMemory => Err(AllocError),
        reply => Ok((reply, again)),
    }
}

/// The reply that an undo will give.
fn answer_to_undo(alloc: Global, engine: &DeskEngine) -> Result<Reply<Global>, AllocError>
    ensures { IfOk result (λ r. reply_of r ≡ Some (tick slots engine.now.machine model.Undo).1) }
{
    match engine.newest_command() {
        Some(newest) => Ok(Reply::Undone(newest.copy(alloc)?)),
        None => Ok(Reply::NothingToUndo),
    }
}
