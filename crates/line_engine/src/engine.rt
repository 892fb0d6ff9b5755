//! The type `LineEngine`.

ghost use Rattle.std.specs.Prelude.{◌≡◌, IfOk, length};
ghost use Rattle.flat_model.specs.Machine.{new_machine};
ghost use Rattle.flat_model.specs.Trace.{read_line};
ghost use Rattle.trace_lines.specs.LineMeaning.{text_fault_of};
ghost use Rattle.undo_journal.specs.Beginning.{forgets};
ghost use Rattle.undo_journal.specs.Timeline.{from_start};
ghost use Rattle.line_engine.specs.LineAnswers.{AnswersFault, AnswersLine};

use crate::answer::{Answer, code_of_fault};
use crate::writing::put_out;
use pids_charge::PlainMeter;
use std::alloc::{AllocError, Global};
use trace_lines::{Line, TextFault, parse_line, put_fault};
use undo_journal::Engine;

/// An engine that answers one line at a time.
#[derive(Drop)]
pub struct LineEngine {
    /// The groups, the processes and the journal.
    pub engine: Engine<Global, PlainMeter<Global>>,
}

/// Puts the output for a line that is not a command into the buffer.
fn answer_fault(alloc: Global, number: u64, fault: TextFault, out: &mut [u8]) -> Answer
    ensures { AnswersFault number (text_fault_of fault) out.new result }
{
    let mut bytes = Vec::new(alloc);
    let Ok(()) = put_fault(&mut bytes, number, fault) else {
        return Answer::OutOfMemory;
    };
    match put_out(out, bytes.as_slice()) {
        Some(len) => Answer::Answered {
            len,
            code: code_of_fault(fault),
        },
        None => Answer::TooSmall {
            needed: bytes.len(),
        },
    }
}

impl LineEngine {
    /// An engine with the root alone, and process 1 in it.
    ///
    /// # Errors
    ///
    /// `AllocError` when out of memory.
    pub fn new(alloc: Global) -> Result<LineEngine, AllocError>
        ensures { IfOk result (λ e. e.engine ≡ from_start new_machine) }
    {
        let meter = PlainMeter::new(alloc)?;
        let engine = Engine::new(alloc, meter)?;
        Ok(LineEngine { engine })
    }

    /// Answers one line, given without its line feed, as the `number`-th of a trace, into the start of the buffer. Costs as
    /// much as the command, and is linear in the line and the output.
    pub fn answer(&mut self, alloc: Global, number: u64, text: &[u8], out: &mut [u8]) -> Answer
        ensures { AnswersLine self.old.engine number (read_line text.now) out.new result self.new.engine }
    {
        match parse_line(alloc, text) {
            Err(AllocError) => Answer::OutOfMemory,
            Ok(Line::Skip) => Answer::Skipped,
            Ok(Line::Fault(fault)) => answer_fault(alloc, number, fault, out),
            Ok(Line::Run(command)) => self.run(alloc, number, &command, out),
        }
    }

    /// How many recorded commands can be undone.
    pub fn depth(&self) -> usize
        ensures { result ≡ length self.now.engine.machine.past }
    {
        self.engine.depth()
    }

    /// A copy: the same groups, processes and journal in memory of its own. This engine stays as it is. Costs as much as
    /// the engine is large.
    ///
    /// # Errors
    ///
    /// `AllocError` when out of memory; what was copied is dropped then.
    pub fn copy(&self, alloc: Global) -> Result<LineEngine, AllocError>
        ensures { IfOk result (λ e. e.engine ≡ self.now.engine) }
    {
        let engine = self.engine.copy(alloc)?;
        Ok(LineEngine { engine })
    }

    /// Forgets the recorded commands: the groups and processes stay, and nothing earlier can be undone. The memory of the
    /// journal is freed. It takes no memory and cannot fail.
    pub fn forget(&mut self)
        ensures { self.new.engine ≡ forgets self.old.engine }
    {
        self.engine.forget();
    }
}
