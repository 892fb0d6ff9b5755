//! The words of a call on charges.

use group_path::GroupPath;
use group_tree::{Limit, LimitFile};
use pids_charge::{Lost, PID_MAX, Peaks, Pid};
use std::alloc::{AllocError, Global};
use test_support::{Case, CaseFault};

/// A call on charges.
#[derive(Clone, Copy)]
pub(crate) enum Call {
    Mkdir,
    MakeGroup,
    New,
    Rmdir,
    TakeGroup,
    Restore,
    Write,
    Move,
    Fork,
    ForkOrCount,
    ForkUncounted,
    Exit,
    Kill,
    KillAlone,
    Uncount,
    Place,
    PlaceAll,
    PlaceAllAlone,
    PlaceBoth,
    PlaceBothAlone,
    Unfork,
    Unmove,
    SetPeaks,
    Totals,
    Slot,
    Peak,
    Current,
    Populated,
    Descendants,
    Members,
    Home,
    Copy,
}

/// The first word of each call.
const CALLS: [(&[u8], Call); 32] = [
    (b"mkdir", Call::Mkdir),
    (b"make_group", Call::MakeGroup),
    (b"new", Call::New),
    (b"rmdir", Call::Rmdir),
    (b"take_group", Call::TakeGroup),
    (b"restore", Call::Restore),
    (b"write", Call::Write),
    (b"move", Call::Move),
    (b"fork", Call::Fork),
    (b"fork_or_count", Call::ForkOrCount),
    (b"fork_uncounted", Call::ForkUncounted),
    (b"exit", Call::Exit),
    (b"kill", Call::Kill),
    (b"kill_alone", Call::KillAlone),
    (b"uncount", Call::Uncount),
    (b"place", Call::Place),
    (b"place_all", Call::PlaceAll),
    (b"place_all_alone", Call::PlaceAllAlone),
    (b"place_both", Call::PlaceBoth),
    (b"place_both_alone", Call::PlaceBothAlone),
    (b"unfork", Call::Unfork),
    (b"unmove", Call::Unmove),
    (b"set_peaks", Call::SetPeaks),
    (b"totals", Call::Totals),
    (b"slot", Call::Slot),
    (b"peak", Call::Peak),
    (b"current", Call::Current),
    (b"populated", Call::Populated),
    (b"descendants", Call::Descendants),
    (b"members", Call::Members),
    (b"home", Call::Home),
    (b"copy", Call::Copy),
];

/// A call with its words. Words that it doesn't have stand for the root, for processes 1 and 2, and for `pids.max`.
#[derive(Drop)]
pub(crate) struct Asked {
    pub(crate) call: Call,
    pub(crate) path: GroupPath<Global>,
    pub(crate) file: LimitFile,
    pub(crate) numbers: Vec<u64>,
    pub(crate) pid: Pid,
    pub(crate) other: Pid,
}

fn call_named(name: &[u8]) -> Option<Call> {
    for (word, call) in &CALLS {
        if *word == name {
            return Some(*call);
        }
    }
    None
}

/// The process with this number of the list, or else with that number. A number that is no pid stands for the last pid.
fn pid_at(numbers: &[u64], at: usize, or: u32) -> Result<Pid, CaseFault> {
    let number = match numbers.get(at) {
        Some(number) => (*number % 4_294_967_296) as u32,
        None => or,
    };
    if let Some(pid) = Pid::new(number) {
        return Ok(pid);
    }
    match Pid::new(PID_MAX) {
        Some(pid) => Ok(pid),
        None => Err(CaseFault::Malformed),
    }
}

/// Reads a word: paths begin with a slash, and all but the names of files and `max` are numbers.
fn read_word(alloc: Global, case: &Case, at: usize, asked: &mut Asked) -> Result<(), CaseFault> {
    match case.word(at) {
        [b'/', ..] => asked.path = case.path(alloc, at)?,
        b"pids.max" | b"max" => {}
        b"cgroup.max.descendants" => asked.file = LimitFile::MaxDescendants,
        b"cgroup.max.depth" => asked.file = LimitFile::MaxDepth,
        _ => {
            if asked.numbers.push(case.number(at)?).is_err() {
                return Err(CaseFault::OutOfMemory);
            }
        }
    }
    Ok(())
}

/// Reads the words of a call.
pub(crate) fn ask(alloc: Global, case: &Case) -> Result<Asked, CaseFault> {
    let Some(call) = call_named(case.word(0)) else {
        return Err(CaseFault::Malformed);
    };
    let mut asked = Asked {
        call,
        path: GroupPath::root(alloc)?,
        file: LimitFile::PidsMax,
        numbers: Vec::new(alloc),
        pid: pid_at(&[], 0, 1)?,
        other: pid_at(&[], 0, 2)?,
    };
    for at in 1..case.count() {
        read_word(alloc, case, at, &mut asked)?;
    }
    asked.pid = pid_at(asked.numbers.as_slice(), 0, 1)?;
    asked.other = pid_at(asked.numbers.as_slice(), 1, 2)?;
    Ok(asked)
}

impl Asked {
    /// The limit: the number, or `max`.
    pub(crate) fn limit(&self) -> Limit {
        match self.numbers.first() {
            Some(number) => Limit::At((*number % 4_294_967_296) as u32),
            None => Limit::Unlimited,
        }
    }

    /// The numbers after the process, as a list of peaks.
    pub(crate) fn peaks(&self, alloc: Global) -> Result<Peaks<Global>, AllocError> {
        let peaks = match self.numbers.as_slice() {
            [_, peaks @ ..] => peaks,
            [] => &[],
        };
        Ok(Peaks::of(Vec::from_slice(alloc, peaks)?))
    }

    /// The first process with the group.
    pub(crate) fn lost(&self, alloc: Global) -> Result<Lost<Global>, AllocError> {
        let path = self.path.copy(alloc)?;
        Ok(Lost {
            pid: self.pid,
            path,
        })
    }

    /// The second process with the group above, or the root.
    pub(crate) fn lost_above(&self, alloc: Global) -> Result<Lost<Global>, AllocError> {
        let path = self.path.front(alloc, self.path.depth().saturating_sub(1))?;
        Ok(Lost {
            pid: self.other,
            path,
        })
    }
}
