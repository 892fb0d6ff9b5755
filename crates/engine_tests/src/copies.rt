//! Copies and texts in the memory of the subject, and what can be read of an engine.

use crate::commands::{command_of, line_of, push_reply};
use crate::engine::Tested;
use crate::records::push_record;
use group_path::GroupPath;
use interface_files::{File, ShowFault, render_home};
use pids_charge::Pid;
use std::alloc::{AllocError, Allocator, Global};
use test_support::{Case, CaseFault, Outcome, push_escaped};

/// The groups that are read.
const GROUPS: [&[u8]; 6] = [
    b"/",
    b"/a",
    b"/b",
    b"/aaaaaaaaaaaaaaaaaaaaaaaa",
    b"/aaaaaaaaaaaaaaaaaaaaaaaa/bbbbbbbbbbbbbbbbbbbbbbbb",
    b"/bbbbbbbbbbbbbbbbbbbbbbbb",
];

/// The files that are read.
const FILES: [File; 10] = [
    File::Procs,
    File::Events,
    File::Stat,
    File::MaxDescendants,
    File::MaxDepth,
    File::PidsMax,
    File::PidsCurrent,
    File::PidsPeak,
    File::PidsEvents,
    File::PidsEventsLocal,
];

/// Appends a text, or why there is none.
fn push_shown<A: Allocator>(
    said: &mut String,
    shown: Result<Vec<u8, A>, ShowFault>,
) -> Result<Outcome, AllocError> {
    match shown {
        Ok(text) => push_escaped(said, text.as_slice())?,
        Err(ShowFault::OutOfMemory) => return Ok(Outcome::Refused),
        Err(fault) => write!(said, "{fault}")?,
    }
    Ok(Outcome::Answered)
}

impl<E: Allocator + Clone, A: Allocator + Clone> Tested<E, A> {
    /// Appends the newest record, from a copy, with its command.
    fn newest(&mut self, alloc: Global, said: &mut String) -> Result<Outcome, CaseFault> {
        let Some(record) = self.engine.newest() else {
            return Ok(Outcome::Answered);
        };
        let Ok(copy) = record.copy(self.memory.clone()?) else {
            return Ok(Outcome::Refused);
        };
        push_record(alloc, said, &copy)?;
        if let Some(command) = self.engine.newest_command() {
            let text = command.text(alloc)?;
            said.push_str(", by ")?;
            push_escaped(said, text.as_slice())?;
        }
        Ok(Outcome::Answered)
    }

    /// Appends the text of a copy of the command of a line.
    fn copy(
        &mut self,
        alloc: Global,
        said: &mut String,
        case: &Case,
    ) -> Result<Outcome, CaseFault> {
        let command = command_of(alloc, case, 1)?;
        let Ok(copy) = command.copy(self.memory.clone()?) else {
            return Ok(Outcome::Refused);
        };
        let text = copy.text(alloc)?;
        push_escaped(said, text.as_slice())?;
        Ok(Outcome::Answered)
    }

    /// Appends the text of the command of a line.
    fn text(
        &mut self,
        alloc: Global,
        said: &mut String,
        case: &Case,
    ) -> Result<Outcome, CaseFault> {
        let command = command_of(alloc, case, 1)?;
        let Ok(text) = command.text(self.memory.clone()?) else {
            return Ok(Outcome::Refused);
        };
        push_escaped(said, text.as_slice())?;
        Ok(Outcome::Answered)
    }

    /// Appends a copy of the reply to the last line.
    fn copy_reply(&mut self, alloc: Global, said: &mut String) -> Result<Outcome, CaseFault> {
        let Ok(copy) = self.last.copy(self.memory.clone()?) else {
            return Ok(Outcome::Refused);
        };
        let reply = copy.copy(alloc)?;
        Ok(push_reply(alloc, said, &reply)?)
    }

    fn render(
        &mut self,
        alloc: Global,
        said: &mut String,
        case: &Case,
    ) -> Result<Outcome, CaseFault> {
        let path = case.path(alloc, 1)?;
        let Some(file) = File::read(case.word(2)) else {
            return Err(CaseFault::Malformed);
        };
        let shown = self.engine.render(self.memory.clone()?, &path, file);
        Ok(push_shown(said, shown)?)
    }

    fn home(&mut self, said: &mut String, case: &Case) -> Result<Outcome, CaseFault> {
        let number = u32::try_from(case.number(1)?).unwrap_or(0);
        let Some(pid) = Pid::new(number) else {
            return Err(CaseFault::Malformed);
        };
        let shown = render_home(self.memory.clone()?, self.engine.charges(), pid);
        Ok(push_shown(said, shown)?)
    }

    /// Appends what can be read of a group.
    fn push_group(
        &mut self,
        alloc: Global,
        text: &mut String,
        group: &[u8],
    ) -> Result<(), AllocError> {
        let Ok(path) = GroupPath::read(alloc, group) else {
            return Err(AllocError);
        };
        for file in FILES {
            let shown = self.engine.render(alloc, &path, file);
            push_shown(text, shown)?;
            text.push_str("; ")?;
        }
        Ok(())
    }

    /// Appends what can be read of the engine: how many records there are, the newest command, and the files of groups.
    pub(crate) fn push_kept(&mut self, alloc: Global, text: &mut String) -> Result<(), AllocError> {
        write!(text, "{} records, ", self.engine.depth())?;
        if let Some(command) = self.engine.newest_command() {
            let newest = command.text(alloc)?;
            push_escaped(text, newest.as_slice())?;
        }
        for group in GROUPS {
            self.push_group(alloc, text, group)?;
        }
        Ok(())
    }

    /// Makes the copy or the text.
    pub(crate) fn copied(
        &mut self,
        alloc: Global,
        said: &mut String,
        case: &Case,
    ) -> Result<Outcome, CaseFault> {
        match str::from_utf8(case.word(0)).unwrap_or("") {
            "newest" => self.newest(alloc, said),
            "copy" => self.copy(alloc, said, case),
            "text" => self.text(alloc, said, case),
            "copy_reply" => self.copy_reply(alloc, said),
            "render" => self.render(alloc, said, case),
            _ => self.home(said, case),
        }
    }
}
