//! A table of processes whose groups are those of a list, one for each row, and the calls on it.

ghost use Rattle.std.specs.Prelude.{◌≡◌, []};
ghost use Rattle.std.specs.List.{All, slice_index_or};
ghost use Rattle.std.specs.Map.{values_of};

use crate::random::many_calls;
use group_path::GroupPath;
use process_table::{Process, ProcessTable};
use std::alloc::{AllocError, Allocator, Global};
use std::sync::Wait;
use std::thread::Threads;
use test_support::{Case, CaseFault, Outcome, Subject, push_escaped};

/// The group of each row. The two below `/a` allocate memory wherever they are kept.
const HOMES: [&[u8]; 4] = [
    b"/",
    b"/a",
    b"/a/bbbbbbbbbbbbbbbbbbbbbbbb",
    b"/a/bbbbbbbbbbbbbbbbbbbbbbbb/c",
];

/// A process of row s is in group s of the list.
#[derive(Drop)]
pub(crate) struct Homed<A: Allocator + Clone> {
    homes: Vec<GroupPath<Global>>,
    alloc: A,
    table: ProcessTable<A>,
    ghost homed: { All (λ p. p.home ≡ slice_index_or homes.items p.row []) (values_of table) },
}

/// Appends numbers with blanks between them.
fn push_numbers(said: &mut String, numbers: &[u32]) -> Result<(), AllocError> {
    for number in numbers {
        if !said.is_empty() {
            said.push(' ')?;
        }
        write!(said, "{number}")?;
    }
    Ok(())
}

impl<A: Allocator + Clone> Homed<A> {
    /// An empty table, over the second allocator.
    pub(crate) fn new(alloc: Global, over: A) -> Result<Homed<A>, AllocError> {
        let mut homes = Vec::new(alloc);
        for text in HOMES {
            let Ok(path) = GroupPath::read(alloc, text) else {
                return Err(AllocError);
            };
            homes.push(path)?;
        }
        let table = ProcessTable::new(over.clone()?)?;
        Ok(Homed {
            homes,
            alloc: over,
            table,
        })
    }

    /// Inserts a process, and returns the row and the leaf of the one that had the pid.
    pub(crate) fn put(
        &mut self,
        pid: u32,
        row: u16,
        leaf: u8,
    ) -> Result<Option<(u16, u8)>, AllocError> {
        let at = usize::from(row);
        if at >= self.homes.len() {
            return Err(AllocError);
        }
        let home = self.homes[at].copy(self.alloc.clone()?)?;
        match self.table.insert(pid, Process { home, row, leaf }) {
            Err(error) => Err(error),
            Ok(None) => Ok(None),
            Ok(Some(before)) => Ok(Some((before.row, before.leaf))),
        }
    }

    /// Removes a process.
    pub(crate) fn take(&mut self, pid: u32) -> Option<Process<A>> {
        self.table.take(pid)
    }

    /// What is read of a process: its row and its leaf.
    pub(crate) fn read(&self, pid: u32) -> Option<(u16, u8)> {
        match self.table.get(pid) {
            Some(process) if self.table.has(pid) => Some((process.row, process.leaf)),
            _ => None,
        }
    }

    pub(crate) fn members<B: Allocator>(
        &self,
        alloc: B,
        row: u16,
    ) -> Result<Vec<u32, B>, AllocError> {
        let mut pids = Vec::from_slice(alloc, self.table.unordered(row))?;
        pids.sort_unstable();
        Ok(pids)
    }

    /// The pids at or below the group of a row.
    pub(crate) fn inside<B: Allocator>(
        &self,
        alloc: B,
        row: u16,
    ) -> Result<Vec<u32, B>, AllocError> {
        let Some(path) = self.homes.get(usize::from(row)) else {
            return Err(AllocError);
        };
        self.table.inside(alloc, path)
    }

    /// The allocator of the table.
    fn over(&self) -> Result<A, AllocError> {
        self.alloc.clone()
    }
}

/// Appends a row and a leaf.
fn push_place(said: &mut String, place: Option<(u16, u8)>) -> Result<Outcome, AllocError> {
    if let Some((row, leaf)) = place {
        write!(said, "{row} {leaf}")?;
    }
    Ok(Outcome::Answered)
}

/// Appends a list, if there was memory for it.
fn push_list<B: Allocator>(
    said: &mut String,
    list: Result<Vec<u32, B>, AllocError>,
) -> Result<Outcome, AllocError> {
    let Ok(list) = list else {
        return Ok(Outcome::Refused);
    };
    push_numbers(said, list.as_slice())?;
    Ok(Outcome::Answered)
}

impl<A: Allocator + Clone> Subject for Homed<A> {
    fn call<R: Threads + Wait + Sync>(
        &mut self,
        _rt: &R,
        alloc: Global,
        case: &Case,
        said: &mut String,
    ) -> Result<Outcome, CaseFault> {
        let first = (case.number(1)? % 4_294_967_296) as u32;
        let row = (first % 65_536) as u16;
        let outcome = match case.word(0) {
            b"insert" => {
                let row = (case.number(2)? % 65_536) as u16;
                let leaf = (case.number(3)? % 256) as u8;
                match self.put(first, row, leaf) {
                    Ok(before) => push_place(said, before)?,
                    Err(AllocError) => Outcome::RefusedAndKept,
                }
            }
            b"get" => push_place(said, self.read(first))?,
            b"take" => match self.take(first) {
                None => Outcome::Answered,
                Some(process) => {
                    let row = process.row;
                    write!(said, "{row} ")?;
                    push_escaped(said, process.home.text())?;
                    Outcome::Answered
                }
            },
            b"members" => push_list(said, self.members(self.over()?, row))?,
            b"inside" => push_list(said, self.inside(self.over()?, row))?,
            b"random" => {
                match many_calls(alloc, first)? {
                    None => said.push_str("ok")?,
                    Some(call) => write!(said, "another answer at call {call}")?,
                }
                Outcome::Answered
            }
            _ => return Err(CaseFault::Malformed),
        };
        Ok(outcome)
    }

    fn show(&mut self, alloc: Global, text: &mut String) -> Result<(), AllocError> {
        for row in 0..4u16 {
            for pid in self.members(alloc, row)? {
                let place = self.read(pid);
                write!(text, "{pid} in {place:?}, ")?;
            }
            let inside = self.inside(alloc, row)?;
            write!(text, "inside {row} {inside:?}, ")?;
        }
        Ok(())
    }
}
