//! Numbers of a group, without text.

ghost use Rattle.std.specs.Prelude.{◌≡◌};
ghost use Rattle.flat_model.specs.Counts.{current};
ghost use Rattle.flat_model.specs.PathText.{read_path};
ghost use Rattle.group_tree.specs.Flat.{limit_of};
ghost use Rattle.line_engine.specs.Numbers.{TellsNumber, TellsNumberAt, limit_number, peak_number, pids_limit, populated_number, unread_number};

use crate::engine::LineEngine;
use crate::listing::{Unread, read};
use group_path::GroupPath;
use group_tree::Limit;
use std::alloc::Global;

/// A number of a group, or why there is none.
#[derive(Clone, Copy, Debug, PartialEq, Eq)]
pub enum Number {
    /// The number.
    Told(u64),
    /// The group does not exist.
    NoGroup,
    /// The root has no such file.
    NoFile,
    /// The text is not a path.
    BadPath,
    /// The allocation of the path failed.
    OutOfMemory,
}

/// The result if no path was read.
fn of_unread(unread: Unread) -> Number
    ensures { result ≡ unread_number unread }
{
    match unread {
        Unread::BadPath => Number::BadPath,
        Unread::OutOfMemory => Number::OutOfMemory,
    }
}

/// The greatest u64 means no limit.
fn number_of_limit(limit: Limit) -> u64
    ensures { result ≡ limit_number (limit_of limit) }
{
    match limit {
        Limit::Unlimited => u64::MAX,
        Limit::At(n) => n as u64,
    }
}

impl LineEngine {
    fn current_at(&mut self, path: &GroupPath<Global>) -> Number
        ensures told { TellsNumberAt self.old.engine.machine.state path.now (current self.old.engine.machine.state path.now) result }
        ensures kept { self.new.engine ≡ self.old.engine }
    {
        if path.depth() == 0 {
            return Number::NoFile;
        }
        match self.engine.current(path) {
            Some(number) => Number::Told(number),
            None => Number::NoGroup,
        }
    }

    fn populated_at(&mut self, path: &GroupPath<Global>) -> Number
        ensures told { TellsNumberAt self.old.engine.machine.state path.now (populated_number self.old.engine.machine.state path.now) result }
        ensures kept { self.new.engine ≡ self.old.engine }
    {
        if path.depth() == 0 {
            return Number::NoFile;
        }
        match self.engine.populated(path) {
            Some(true) => Number::Told(1),
            Some(false) => Number::Told(0),
            None => Number::NoGroup,
        }
    }

    fn peak_at(&self, path: &GroupPath<Global>) -> Number
        ensures { TellsNumberAt self.now.engine.machine.state path.now (peak_number self.now.engine.machine.state path.now) result }
    {
        if path.depth() == 0 {
            return Number::NoFile;
        }
        match self.engine.charges().attr(path) {
            Some(attr) => Number::Told(attr.peak),
            None => Number::NoGroup,
        }
    }

    fn limit_at(&self, path: &GroupPath<Global>) -> Number
        ensures { TellsNumberAt self.now.engine.machine.state path.now (pids_limit self.now.engine.machine.state path.now) result }
    {
        if path.depth() == 0 {
            return Number::NoFile;
        }
        match self.engine.charges().attr(path) {
            Some(attr) => Number::Told(number_of_limit(attr.limits.pids)),
            None => Number::NoGroup,
        }
    }

    /// `pids.current`: how many processes are in the group or below it.
    pub fn current(&mut self, alloc: Global, path: &[u8]) -> Number
        ensures told { TellsNumber self.old.engine.machine.state current (read_path path.now) result }
        ensures kept { self.new.engine ≡ self.old.engine }
    {
        match read(alloc, path) {
            Ok(path) => self.current_at(&path),
            Err(unread) => of_unread(unread),
        }
    }

    /// Whether a process is in the group or below it: 1 or 0.
    pub fn populated(&mut self, alloc: Global, path: &[u8]) -> Number
        ensures told { TellsNumber self.old.engine.machine.state populated_number (read_path path.now) result }
        ensures kept { self.new.engine ≡ self.old.engine }
    {
        match read(alloc, path) {
            Ok(path) => self.populated_at(&path),
            Err(unread) => of_unread(unread),
        }
    }

    /// `pids.peak`: the most processes that were in the group and below it at once.
    pub fn peak(&self, alloc: Global, path: &[u8]) -> Number
        ensures { TellsNumber self.now.engine.machine.state peak_number (read_path path.now) result }
    {
        match read(alloc, path) {
            Ok(path) => self.peak_at(&path),
            Err(unread) => of_unread(unread),
        }
    }

    /// `pids.max`; the greatest u64 means no limit.
    pub fn limit(&self, alloc: Global, path: &[u8]) -> Number
        ensures { TellsNumber self.now.engine.machine.state pids_limit (read_path path.now) result }
    {
        match read(alloc, path) {
            Ok(path) => self.limit_at(&path),
            Err(unread) => of_unread(unread),
        }
    }
}
