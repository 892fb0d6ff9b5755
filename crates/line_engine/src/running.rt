//! Running a command only if its output fits; otherwise nothing changes.

ghost use Rattle.std.specs.Prelude.{◌≡◌, ◌≤◌, true, cond, ltb, ◌&&◌, not, IfOk, IfSome, Some, is_some, length, option_map};
ghost use Rattle.flat_model.specs.Command as model;
ghost use Rattle.flat_model.specs.Machine.{tick};
ghost use Rattle.flat_model.specs.Replies.{reply_bytes};
ghost use Rattle.undo_journal.specs.Answer.{undoes_without_memory};
ghost use Rattle.undo_journal.specs.CommandMeaning.{command_of, reply_of};
ghost use Rattle.undo_journal.specs.Slots.{slots};
ghost use Rattle.undo_journal.specs.Timeline.{becomes};
ghost use Rattle.line_engine.specs.LineAnswers.{AnswersRun, is_told};
ghost use Rattle.line_engine.specs.Ready.{AnswersReply, ready_reply, is_loud, is_counted_reply};

use crate::answer::{Answer, code_of_reply};
use crate::engine::LineEngine;
use crate::writing::put_out;
use std::alloc::{AllocError, Global};
use trace_lines::put_reply;
use undo_journal::{Command, Refusal, Reply};

/// The bytes of a reply.
fn bytes_of(alloc: Global, number: u64, reply: &Reply<Global>) -> Result<Vec<u8>, AllocError>
    ensures { IfOk result (λ bytes. Some bytes.items ≡ option_map (reply_bytes number) (reply_of reply.now)) }
{
    let mut bytes = Vec::new(alloc);
    put_reply(alloc, &mut bytes, number, reply)?;
    Ok(bytes)
}

/// Whether the reply is not out of memory.
fn is_answered(reply: &Reply<Global>) -> bool
    ensures { result ≡ is_some (reply_of reply.now) }
{
    match reply {
        Reply::OutOfMemory => false,
        _ => true,
    }
}

/// The result for a command with this reply. `ready` has the reply's bytes if it is that of an accepted change.
fn answer_reply(
    alloc: Global,
    number: u64,
    reply: &Reply<Global>,
    ready: &[u8],
    out: &mut [u8],
) -> Answer
    requires { IfSome (reply_of reply.now) (λ r. is_loud r ≡ true → length ready.now ≤ length out.old) }
    ensures { IfSome (reply_of reply.now) (λ r. (is_loud r ≡ true → ready.now ≡ reply_bytes number r) → AnswersReply number r out.new result) }
{
    if matches!(reply, Reply::Done | Reply::Undone(_)) {
        return match put_out(out, ready) {
            Some(len) => Answer::Answered {
                len,
                code: code_of_reply(reply),
            },
            None => Answer::TooSmall {
                needed: ready.len(),
            },
        };
    }
    let Ok(bytes) = bytes_of(alloc, number, reply) else {
        return Answer::OutOfMemory;
    };
    match put_out(out, bytes.as_slice()) {
        Some(len) => Answer::Answered {
            len,
            code: code_of_reply(reply),
        },
        None => Answer::TooSmall {
            needed: bytes.len(),
        },
    }
}

impl LineEngine {
    /// The reply of the engine if the command changes it and is not refused.
    fn expected(
        &self,
        alloc: Global,
        command: &Command<Global>,
    ) -> Result<Reply<Global>, AllocError>
        ensures { IfOk result (λ reply. reply_of reply ≡ Some (ready_reply self.now.engine.machine (command_of command.now))) }
    {
        match command {
            Command::Undo => match self.engine.newest_command() {
                Some(newest) => {
                    let copy = newest.copy(alloc)?;
                    Ok(Reply::Undone(copy))
                }
                None => Ok(Reply::NothingToUndo),
            },
            _ => Ok(Reply::Done),
        }
    }

    /// The output for the command if it changes the engine and is not refused.
    fn ready(
        &self,
        alloc: Global,
        number: u64,
        command: &Command<Global>,
    ) -> Result<Vec<u8>, AllocError>
        ensures { IfOk result (λ bytes. bytes.items ≡ reply_bytes number (ready_reply self.now.engine.machine (command_of command.now))) }
    {
        let reply = self.expected(alloc, command)?;
        bytes_of(alloc, number, &reply)
    }

    /// Whether the command changes the engine and is not refused.
    fn is_changed_by(&mut self, command: &Command<Global>) -> bool
        ensures told { result ≡ is_loud (tick slots self.old.engine.machine (command_of command.now)).1 }
        ensures kept { self.new.engine ≡ self.old.engine }
    {
        match command {
            Command::Show { path: _, file: _ } | Command::Locate(_) => false,
            Command::Undo => self.engine.newest_command().is_some(),
            _ => self.engine.accepts(command),
        }
    }

    /// Whether the command changes the engine and is not refused, and its output of `needed` bytes is longer than the
    /// buffer.
    fn lacks_room(&mut self, command: &Command<Global>, needed: usize, room: usize) -> bool
        ensures told { result ≡ (ltb room needed && is_loud (tick slots self.old.engine.machine (command_of command.now)).1) }
        ensures kept { self.new.engine ≡ self.old.engine }
    {
        if room >= needed {
            return false;
        }
        self.is_changed_by(command)
    }

    /// Undoes a counted refusal whose output doesn't fit. Allocates nothing.
    fn take_untold_back(&mut self, reply: &Reply<Global>, answer: Answer)
        requires { IfSome (reply_of reply.now) (λ r. is_counted_reply r ≡ true → undoes_without_memory slots self.old.engine.machine.past ≡ true) }
        ensures { IfSome (reply_of reply.now) (λ r. self.new.engine ≡ cond (is_counted_reply r && not (is_told answer)) (becomes self.old.engine (tick slots self.old.engine.machine model.Undo).0) self.old.engine) }
    {
        match (reply, answer) {
            (_, Answer::Answered { len: _, code: _ }) => {}
            (Reply::Refused(Refusal::PidsMax(_)), _) => {
                let _undone = self.engine.undo_alone(0);
            }
            _ => {}
        }
    }

    /// Answers one command.
    pub(crate) fn run(
        &mut self,
        alloc: Global,
        number: u64,
        command: &Command<Global>,
        out: &mut [u8],
    ) -> Answer
        ensures { AnswersRun self.old.engine number (command_of command.now) out.new result self.new.engine }
    {
        let Ok(ready) = self.ready(alloc, number, command) else {
            return Answer::OutOfMemory;
        };
        if self.lacks_room(command, ready.len(), out.len()) {
            return Answer::TooSmall {
                needed: ready.len(),
            };
        }
        let reply = self.engine.apply_alone(0, command);
        let answered = is_answered(&reply);
        if !answered {
            return Answer::OutOfMemory;
        }
        let answer = answer_reply(alloc, number, &reply, ready.as_slice(), out);
        self.take_untold_back(&reply, answer);
        answer
    }
}
