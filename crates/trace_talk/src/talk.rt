//! A talk: the engine, and two counts of the lines answered so far.

ghost use Rattle.std.specs.Prelude.{◌≡◌, ◌+◌, ◌<◌, ◌≤◌, IfOk, OnOk, if◌then◌else◌};
ghost use Rattle.flat_model.specs.Trace.{Fault, Run, read_line};
ghost use Rattle.trace_lines.specs.LineMeaning.{text_fault_of};
ghost use Rattle.undo_journal.specs.CommandMeaning.{command_of};
ghost use Rattle.trace_talk.specs.Points.{IsSaid, number_max, start_point, summary_of, without_past};

use crate::Summary;
use pids_charge::PlainMeter;
use std::alloc::{AllocError, Global};
use std::marker::Model;
use trace_lines::{Line, TextFault, is_refused, parse_line, put_fault, put_reply};
use undo_journal::{Command, Engine};

/// The most bytes of a trace.
pub const TRACE_MAX: usize = 16_777_216;

/// The engine after the lines answered so far, and the two counts of those lines. It starts no
/// thread, takes no lock and never waits.
#[derive(Drop)]
pub struct Talk {
    engine: Engine<Global, PlainMeter<Global>>,
    summary: Summary,
}

impl Model for Talk {
    ghost use Rattle.std.specs.Prelude.{◌≤◌};
    ghost use Rattle.std.specs.Coded.{codes};
    ghost use Rattle.flat_model.specs.StateCodes.{state_code};
    ghost use Rattle.trace_talk.specs.Points.{Point};

    ghost Value = { Point };

    ghost coded = { Prim.hlevel (codes, state_code) };

    ghost view = { λ t. record { machine = t.engine.machine; commands = t.summary.commands; refused = t.summary.refused } };

    ghost invariant = { λ t. t.summary.refused ≤ t.summary.commands };
}

impl Talk {
    /// The state before the first line.
    ///
    /// # Errors
    ///
    /// `AllocError` when out of memory.
    pub fn new(alloc: Global) -> Result<Talk, AllocError>
        ensures { IfOk result (λ talk. talk ≡ start_point) }
    {
        Ok(Talk {
            engine: Engine::new(alloc, PlainMeter::new(alloc)?)?,
            summary: Summary {
                commands: 0,
                refused: 0,
            },
        })
    }

    /// How many lines had a number, and how many of these were answered `refused`.
    pub fn summary(&self) -> Summary
        ensures { result ≡ summary_of self.now }
    {
        self.summary
    }

    /// Answers one line, given without its line feed. Appends the answer, or nothing if the line
    /// has no number. Costs what the command costs, plus time linear in the line and the answer.
    ///
    /// # Errors
    ///
    /// `AllocError` when out of memory. The line may have been run then, and a part of its answer
    /// appended. The talk must not be used again.
    pub fn put_answer(
        &mut self,
        alloc: Global,
        line: &[u8],
        bytes: &mut Vec<u8>,
    ) -> Result<(), AllocError>
        requires { self.old.commands < number_max }
        ensures { OnOk result (IsSaid self.old (read_line line.now) bytes.old.items bytes.new.items self.new) }
    {
        match parse_line(alloc, line)? {
            Line::Skip => Ok(()),
            Line::Fault(fault) => self.refuse(fault, bytes),
            Line::Run(command) => self.run(alloc, &command, bytes),
        }
    }

    /// Forgets all recorded commands and frees their memory: groups, processes and counts stay. It takes no memory and
    /// cannot fail. Costs as much as dropping the records.
    pub fn forget(&mut self)
        ensures { self.new ≡ without_past self.old }
    {
        self.engine.forget();
    }

    /// Answers a line that is not a command.
    fn refuse(&mut self, fault: TextFault, bytes: &mut Vec<u8>) -> Result<(), AllocError>
        requires { self.old.commands < number_max }
        ensures { OnOk result (IsSaid self.old (Fault (text_fault_of fault)) bytes.old.items bytes.new.items self.new) }
    {
        put_fault(bytes, self.summary.commands + 1, fault)?;
        count(&mut self.summary, true);
        Ok(())
    }

    /// Answers a command.
    fn run(
        &mut self,
        alloc: Global,
        command: &Command<Global>,
        bytes: &mut Vec<u8>,
    ) -> Result<(), AllocError>
        requires { self.old.commands < number_max }
        ensures { OnOk result (IsSaid self.old (Run (command_of command.now)) bytes.old.items bytes.new.items self.new) }
    {
        let reply = self.engine.apply_alone(0, command);
        put_reply(alloc, bytes, self.summary.commands + 1, &reply)?;
        count(&mut self.summary, is_refused(&reply));
        Ok(())
    }
}

/// Counts one line that has a number.
fn count(summary: &mut Summary, is_refused: bool)
    requires few { summary.old.commands < number_max }
    requires counted { summary.old.refused ≤ summary.old.commands }
    ensures commands { summary.new.commands ≡ summary.old.commands + 1 }
    ensures refused { summary.new.refused
        ≡ summary.old.refused + (if is_refused then 1 else 0) }
{
    summary.commands += 1;
    if is_refused {
        summary.refused += 1;
    }
}
