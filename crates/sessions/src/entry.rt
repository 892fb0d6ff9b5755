//! A log entry, and a session's receipt for it.

use std::alloc::Global;
use std::marker::Model;
use undo_journal::{Command, Reply};

/// One entry of the log: which session ran which command, and the machine's reply. The reply is
/// never out of memory.
#[derive(Drop)]
pub struct Entry {
    /// The number of the session.
    pub session: u8,
    /// The command.
    pub command: Command<Global>,
    /// The reply.
    pub reply: Reply<Global>,
}

impl Model for Entry {
    ghost use Rattle.flat_model.specs.Log as log;

    ghost Value = { log.Entry };

    ghost use Rattle.std.specs.Prelude.{◌≢◌, None};
    ghost use Rattle.undo_journal.specs.CommandMeaning.{command_of, reply_of};
    ghost use Rattle.sessions.specs.SessionMeaning.{answer_of};

    ghost view = { λ e. record {
      session = e.session;
      command = command_of e.command;
      reply = answer_of e.reply;
    } };

    ghost invariant = { λ e. reply_of e.reply ≢ None };
}

/// A session's own record of a log entry.
#[derive(Drop)]
pub struct Receipt {
    /// The entry's number in the log, from 0.
    pub number: u64,
    /// The command.
    pub command: Command<Global>,
    /// The reply, which is never out of memory.
    pub reply: Reply<Global>,
}

impl Model for Receipt {
    ghost use Rattle.flat_model.specs.Log as log;

    ghost Value = { log.Receipt };

    ghost use Rattle.std.specs.Prelude.{◌≢◌, None};
    ghost use Rattle.undo_journal.specs.CommandMeaning.{command_of, reply_of};
    ghost use Rattle.sessions.specs.SessionMeaning.{answer_of};

    ghost view = { λ r. record {
      number = r.number;
      command = command_of r.command;
      reply = answer_of r.reply;
    } };

    ghost invariant = { λ r. reply_of r.reply ≢ None };
}
