//! An engine, and the calls on it.

use crate::commands::{command, command_of, line_of, push_reply, with_number};
use crate::heaps::{forks_until_full, makes_in_small_heaps, shares_paths};
use crate::values::value;
use interface_files::File;
use pids_charge::{Gate, OpenGate, PlainMeter};
use std::alloc::{AllocError, Allocator, Global};
use std::sync::Wait;
use std::sync::atomic::{AtomicU64, Ordering};
use std::thread::{Threads, yield_now};
use test_support::{BLOCK_SIZE, BLOCKS_MAX, Case, CaseFault, Outcome, Subject};
use undo_journal::{Command, Engine, Reply};

/// An engine over a plain meter that lives in one memory, and copies and texts in another.
#[derive(Drop)]
pub(crate) struct Tested<E: Allocator + Clone, A: Allocator + Clone> {
    pub(crate) home: E,
    pub(crate) memory: A,
    pub(crate) engine: Engine<E, PlainMeter<Global>>,
    /// The reply to the last line.
    pub(crate) last: Reply<Global>,
    /// The commands to rehearse, and the replies to them, one a line.
    pub(crate) planned: Vec<Command<E>>,
    pub(crate) told: String,
    /// What `fill` has taken.
    taken: Vec<Vec<u8, A>>,
}

/// The parts that have passed, as the digits of a number. Each lets other threads run, by a call that `.ci/refused/run` sees.
#[derive(Drop)]
struct Passed {
    parts: AtomicU64,
}

impl Gate for Passed {
    fn pass(&self, part: u8) {
        let before = self.parts.load(Ordering::SeqCst);
        let parts = before.wrapping_mul(10).wrapping_add(u64::from(part));
        self.parts.store(parts, Ordering::SeqCst);
        yield_now();
    }
}

/// What a call does.
#[derive(Clone, Copy, PartialEq, Eq)]
enum Kind {
    Line,
    Alone,
    Gated,
    UndoNewest,
    UndoNewestAlone,
    Show,
    Each,
    Rehearsal,
    Other,
}

/// What a call with this name does.
fn kind_of(word: &str) -> Kind {
    match word {
        "mkdir" | "rmdir" | "fork" | "exit" | "write" | "cat" | "where" | "undo" => Kind::Line,
        "alone" => Kind::Alone,
        "gated" => Kind::Gated,
        "undo_newest" => Kind::UndoNewest,
        "undo_newest_alone" => Kind::UndoNewestAlone,
        "show" => Kind::Show,
        "each" => Kind::Each,
        _ if word.starts_with("rehearse") => Kind::Rehearsal,
        _ => Kind::Other,
    }
}

impl<E: Allocator + Clone, A: Allocator + Clone> Tested<E, A> {
    /// A new engine that lives in `home`; its meter is elsewhere. Its copies are in `memory`.
    ///
    /// # Errors
    ///
    /// `AllocError` when out of memory.
    pub(crate) fn new(alloc: Global, home: E, memory: A) -> Result<Tested<E, A>, AllocError> {
        let meter = PlainMeter::new(alloc)?;
        let engine = Engine::new(home.clone()?, meter)?;
        Ok(Tested {
            home,
            memory,
            engine,
            last: Reply::NothingToUndo,
            planned: Vec::new(alloc),
            told: String::new(alloc),
            taken: Vec::new(alloc),
        })
    }

    /// Appends the reply, from a copy of it, and forgets what was rehearsed before.
    pub(crate) fn keep(
        &mut self,
        alloc: Global,
        said: &mut String,
        reply: &Reply<E>,
    ) -> Result<Outcome, CaseFault> {
        let reply = reply.copy(alloc)?;
        let outcome = push_reply(alloc, said, &reply)?;
        self.last = reply;
        self.planned.clear();
        self.told.clear();
        Ok(outcome)
    }

    /// Applies a copy of the command of a line.
    fn apply<R: Threads + Wait + Sync>(
        &mut self,
        rt: &R,
        alloc: Global,
        said: &mut String,
        line: &[u8],
    ) -> Result<Outcome, CaseFault> {
        let command = command(alloc, line)?;
        let copy = command.copy(alloc)?;
        let reply = self.engine.apply(rt, 0, &copy);
        self.keep(alloc, said, &reply)
    }

    /// Applies the command of a line on the calling thread.
    fn alone(
        &mut self,
        alloc: Global,
        said: &mut String,
        case: &Case,
    ) -> Result<Outcome, CaseFault> {
        let command = command_of(alloc, case, 1)?;
        let reply = self.engine.apply_alone(0, &command);
        self.keep(alloc, said, &reply)
    }

    /// Applies the command of a line. Appends the parts that passed the test hook, then the reply.
    fn gated<R: Threads + Wait + Sync>(
        &mut self,
        rt: &R,
        alloc: Global,
        said: &mut String,
        case: &Case,
    ) -> Result<Outcome, CaseFault> {
        let command = command_of(alloc, case, 1)?;
        let gate = Passed {
            parts: AtomicU64::new(0),
        };
        let reply = self.engine.apply_gated(rt, &gate, 0, &command);
        write!(said, "{} ", gate.parts.load(Ordering::SeqCst))?;
        self.keep(alloc, said, &reply)
    }

    fn undo_newest<R: Threads + Wait + Sync>(
        &mut self,
        rt: &R,
        alloc: Global,
        said: &mut String,
    ) -> Result<Outcome, CaseFault> {
        let reply = self.engine.undo(rt, 0);
        self.keep(alloc, said, &reply)
    }

    fn undo_newest_alone(
        &mut self,
        alloc: Global,
        said: &mut String,
    ) -> Result<Outcome, CaseFault> {
        let reply = self.engine.undo_alone(0);
        self.keep(alloc, said, &reply)
    }

    /// Applies the command of the words of the call.
    fn line<R: Threads + Wait + Sync>(
        &mut self,
        rt: &R,
        alloc: Global,
        said: &mut String,
        case: &Case,
    ) -> Result<Outcome, CaseFault> {
        let line = line_of(alloc, case, 0)?;
        self.apply(rt, alloc, said, line.as_slice())
    }

    fn show_file<R: Threads + Wait + Sync>(
        &mut self,
        rt: &R,
        alloc: Global,
        said: &mut String,
        case: &Case,
    ) -> Result<Outcome, CaseFault> {
        let path = case.path(alloc, 1)?;
        let Some(file) = File::read(case.word(2)) else {
            return Err(CaseFault::Malformed);
        };
        let command = Command::Show { path, file };
        let reply = self.engine.apply_gated(rt, &OpenGate, 0, &command);
        self.keep(alloc, said, &reply)
    }

    /// The reply to the line with this number.
    fn reply_at<R: Threads + Wait + Sync>(
        &mut self,
        rt: &R,
        alloc: Global,
        line: &[u8],
        number: u64,
    ) -> Result<String, CaseFault> {
        let mut said = String::new(alloc);
        let line = with_number(alloc, line, number)?;
        self.apply(rt, alloc, &mut said, line.as_slice())?;
        Ok(said)
    }

    /// The reply that the line has with all numbers, followed by the first other one, if there is one.
    fn replies<R: Threads + Wait + Sync>(
        &mut self,
        rt: &R,
        alloc: Global,
        line: &[u8],
        first: u64,
        last: u64,
    ) -> Result<String, CaseFault> {
        let mut common = self.reply_at(rt, alloc, line, first)?;
        for number in first.saturating_add(1)..=last {
            let other = self.reply_at(rt, alloc, line, number)?;
            if other.as_str() != common.as_str() {
                write!(common, ", at {number} {other}")?;
                break;
            }
        }
        Ok(common)
    }

    /// Appends the reply that all numbers have, or the first other one.
    fn each<R: Threads + Wait + Sync>(
        &mut self,
        rt: &R,
        alloc: Global,
        said: &mut String,
        case: &Case,
    ) -> Result<Outcome, CaseFault> {
        let line = line_of(alloc, case, 3)?;
        let replies = self.replies(rt, alloc, line.as_slice(), case.number(1)?, case.number(2)?)?;
        said.push_str(replies.as_str())?;
        Ok(Outcome::Answered)
    }

    /// Whether the group has process 1, and these.
    fn listed(
        &mut self,
        alloc: Global,
        said: &mut String,
        case: &Case,
    ) -> Result<Outcome, CaseFault> {
        let path = case.path(alloc, 1)?;
        let (first, last) = (case.number(2)?, case.number(3)?);
        let mut wanted = String::from_str(alloc, "1\n")?;
        for number in first..=last {
            write!(wanted, "{number}\n")?;
        }
        let is_listed = match self.engine.render(alloc, &path, File::Procs) {
            Ok(text) => text.as_slice() == wanted.as_bytes(),
            Err(_) => false,
        };
        said.push_str(if is_listed { "yes" } else { "no" })?;
        Ok(Outcome::Answered)
    }

    fn undo_all<R: Threads + Wait + Sync>(
        &mut self,
        rt: &R,
        said: &mut String,
    ) -> Result<Outcome, CaseFault> {
        match self.engine.undo_all(rt, 0) {
            Ok(count) => write!(said, "{count}")?,
            Err((count, AllocError)) => write!(said, "out of memory after {count}")?,
        }
        Ok(Outcome::Answered)
    }

    /// Takes the memory but for this number of blocks.
    fn fill(&mut self, room: u64) -> Result<Outcome, CaseFault> {
        for _ in 0..BLOCKS_MAX {
            match Vec::with_capacity(self.memory.clone()?, BLOCK_SIZE) {
                Ok(block) => self.taken.push(block).map_err(|_| CaseFault::OutOfMemory)?,
                Err(AllocError) => break,
            }
        }
        for _ in 0..room {
            drop(self.taken.pop());
        }
        Ok(Outcome::Answered)
    }

    /// A call on what the engine keeps, or that needs no engine.
    fn other<R: Threads + Wait + Sync>(
        &mut self,
        rt: &R,
        alloc: Global,
        said: &mut String,
        case: &Case,
    ) -> Result<Outcome, CaseFault> {
        match str::from_utf8(case.word(0)).unwrap_or("") {
            "records" => {
                write!(said, "{}", self.engine.depth())?;
                Ok(Outcome::Answered)
            }
            "forget" => {
                self.engine.forget();
                Ok(Outcome::Answered)
            }
            "free" => {
                self.taken.clear();
                Ok(Outcome::Answered)
            }
            "fill" => self.fill(case.number(1)?),
            "undo_all" => self.undo_all(rt, said),
            "listed" => self.listed(alloc, said, case),
            "newest" | "copy" | "text" | "copy_reply" | "render" | "home" => {
                self.copied(alloc, said, case)
            }
            "make_in_small_heaps" => makes_in_small_heaps(alloc, said),
            "fork_until_full" => forks_until_full(rt, alloc, said),
            "share_paths" => shares_paths(alloc, said),
            _ => value(alloc, said, case),
        }
    }

    /// Makes the call.
    fn make<R: Threads + Wait + Sync>(
        &mut self,
        rt: &R,
        alloc: Global,
        said: &mut String,
        case: &Case,
    ) -> Result<Outcome, CaseFault> {
        match kind_of(str::from_utf8(case.word(0)).unwrap_or("")) {
            Kind::Line => self.line(rt, alloc, said, case),
            Kind::Alone => self.alone(alloc, said, case),
            Kind::Gated => self.gated(rt, alloc, said, case),
            Kind::UndoNewest => self.undo_newest(rt, alloc, said),
            Kind::UndoNewestAlone => self.undo_newest_alone(alloc, said),
            Kind::Show => self.show_file(rt, alloc, said, case),
            Kind::Each => self.each(rt, alloc, said, case),
            Kind::Rehearsal => self.rehearse(rt, alloc, said, case),
            Kind::Other => self.other(rt, alloc, said, case),
        }
    }
}

impl<E: Allocator + Clone, A: Allocator + Clone> Subject for Tested<E, A> {
    fn call<R: Threads + Wait + Sync>(
        &mut self,
        rt: &R,
        alloc: Global,
        case: &Case,
        said: &mut String,
    ) -> Result<Outcome, CaseFault> {
        self.make(rt, alloc, said, case)
    }

    fn show(&mut self, alloc: Global, text: &mut String) -> Result<(), AllocError> {
        self.push_kept(alloc, text)
    }
}
