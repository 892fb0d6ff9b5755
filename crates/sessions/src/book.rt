//! The engine with its log, which the lock guards.

ghost use Rattle.std.specs.Prelude.{◌≡◌, ◌++◌, ◌∷◌, [], IfOk, OnErr, vec_len};
ghost use Rattle.flat_model.specs.Log.{IsLegal, log_end, entry_of};
ghost use Rattle.undo_journal.specs.CommandMeaning.{command_of};
ghost use Rattle.undo_journal.specs.Timeline.{from_start};
ghost use Rattle.sessions.specs.SessionMeaning.{slots};

use crate::step::answer_twice;
use crate::{Entry, Receipt};
use board_meter::BoardMeter;
use std::alloc::{AllocError, Allocator, Global};
use std::sync::Wait;
use std::thread::Threads;
use undo_journal::{Command, Engine};

/// The engine of a desk. It counts on a board of atomic words.
pub type DeskEngine = Engine<Global, BoardMeter>;

/// The log is legal, and the engine is in the state at its end. It has never forgotten a command.
#[derive(Drop)]
pub(crate) struct Book {
    pub(crate) alloc: Global,
    pub(crate) engine: DeskEngine,
    pub(crate) log: Vec<Entry>,
    ghost legal: { IsLegal slots log.items },
    ghost at_end: { engine ≡ from_start (log_end slots log.items) },
}

impl Book {
    /// A new engine, with an empty log that has memory for this many entries.
    pub(crate) fn new(alloc: Global, entries: usize) -> Result<Book, AllocError>
        ensures { IfOk result (λ b. b.log.items ≡ []) }
    {
        let engine = Engine::new(alloc, BoardMeter::new(alloc)?)?;
        let log = Vec::with_capacity(alloc, entries)?;
        Ok(Book { alloc, engine, log })
    }

    /// Runs a command, logs it, and returns its receipt. The log entry is reserved before the
    /// command runs.
    pub(crate) fn record<R: Threads + Wait + Sync, B: Allocator + Clone>(
        &mut self,
        rt: &R,
        session: u8,
        cmd: &Command<B>,
    ) -> Result<Receipt, AllocError>
        ensures entry { IfOk result (λ r. self.new.log.items
            ≡ self.old.log.items ++ entry_of session r ∷ []) }
        ensures number { IfOk result (λ r. r.number ≡ vec_len self.old.log) }
        ensures command { IfOk result (λ r. r.command ≡ command_of cmd.now) }
        ensures log { OnErr result (self.new.log.items ≡ self.old.log.items) }
        ensures engine { OnErr result (self.new.engine ≡ self.old.engine) }
    {
        let Book { alloc, engine, log } = self;
        log.reserve(1)?;
        let logged = cmd.copy(*alloc)?;
        let command = cmd.copy(*alloc)?;
        let number = log.len() as u64;
        let (first, reply) = answer_twice(rt, *alloc, engine, session, cmd)?;
        log.push_reserved(Entry {
            session,
            command: logged,
            reply: first,
        });
        Ok(Receipt {
            number,
            command,
            reply,
        })
    }
}
