//! The answers of calls on charges.

use group_path::GroupPath;
use group_tree::{Attr, Limit};
use pids_charge::{ChargeFault, ForkOutcome, LostList, Peaks, Pid, Shifted};
use std::alloc::{AllocError, Allocator};
use test_support::{Outcome, push_escaped};

fn say_fault(said: &mut String, fault: ChargeFault) -> Result<Outcome, AllocError> {
    match fault {
        ChargeFault::OutOfMemory => return Ok(Outcome::Refused),
        ChargeFault::NoProcess(pid) => {
            let number = pid.get();
            write!(said, "refused NoProcess({number})")?;
        }
        ChargeFault::PidInUse(pid) => {
            let number = pid.get();
            write!(said, "refused PidInUse({number})")?;
        }
        _ => write!(said, "refused {fault:?}")?,
    }
    Ok(Outcome::Answered)
}

/// A call that may not be made now.
fn say_may_not(said: &mut String) -> Result<Outcome, AllocError> {
    said.push_str("may not be made")?;
    Ok(Outcome::Answered)
}

pub(crate) fn say_done(
    said: &mut String,
    made: Option<Result<(), ChargeFault>>,
) -> Result<Outcome, AllocError> {
    match made {
        None => return say_may_not(said),
        Some(Err(fault)) => return say_fault(said, fault),
        Some(Ok(())) => said.push_str("ok")?,
    }
    Ok(Outcome::Answered)
}

/// The local total and the total of a removed group.
pub(crate) fn say_attr(
    said: &mut String,
    taken: Result<Attr, ChargeFault>,
) -> Result<Outcome, AllocError> {
    match taken {
        Err(fault) => return say_fault(said, fault),
        Ok(attr) => {
            let (local, total) = (attr.local, attr.total);
            write!(said, "totals {local} {total}")?;
        }
    }
    Ok(Outcome::Answered)
}

pub(crate) fn say_limit(
    said: &mut String,
    old: Result<Limit, ChargeFault>,
) -> Result<Outcome, AllocError> {
    match old {
        Err(fault) => return say_fault(said, fault),
        Ok(Limit::Unlimited) => said.push_str("was max")?,
        Ok(Limit::At(limit)) => write!(said, "was {limit}")?,
    }
    Ok(Outcome::Answered)
}

/// Old peaks, from the group upward.
fn push_peaks<A: Allocator + Clone>(said: &mut String, peaks: &Peaks<A>) -> Result<(), AllocError> {
    said.push_str("peaks")?;
    for i in 0..peaks.len() {
        let peak = peaks.peak(i);
        write!(said, " {peak}")?;
    }
    Ok(())
}

pub(crate) fn say_peaks<A: Allocator + Clone>(
    said: &mut String,
    made: Result<Peaks<A>, ChargeFault>,
) -> Result<Outcome, AllocError> {
    match made {
        Err(fault) => return say_fault(said, fault),
        Ok(peaks) => push_peaks(said, &peaks)?,
    }
    Ok(Outcome::Answered)
}

/// The old peaks of a fork that was made, or twice the group whose limit refused it, or its refusal.
pub(crate) fn say_forked<A: Allocator + Clone>(
    said: &mut String,
    forked: Result<ForkOutcome<A>, AllocError>,
) -> Result<Outcome, AllocError> {
    match forked {
        Err(_) => return Ok(Outcome::Refused),
        Ok(ForkOutcome::Refused(refusal)) => return say_fault(said, ChargeFault::from(refusal)),
        Ok(ForkOutcome::Made(peaks)) => push_peaks(said, &peaks)?,
        Ok(ForkOutcome::Counted { path, shared }) => {
            said.push_str("counted ")?;
            push_escaped(said, path.text())?;
            said.push(' ')?;
            push_escaped(said, shared.text())?;
        }
    }
    Ok(Outcome::Answered)
}

/// The same where a refused fork can't be counted, and is out of memory instead.
pub(crate) fn say_uncounted<A: Allocator + Clone>(
    said: &mut String,
    forked: Result<ForkOutcome<A>, AllocError>,
) -> Result<Outcome, AllocError> {
    match forked {
        Err(_) => said.push_str("not counted")?,
        other => return say_forked(said, other),
    }
    Ok(Outcome::Answered)
}

/// The old group, and the old peaks along the new path.
pub(crate) fn say_moved<A: Allocator + Clone>(
    said: &mut String,
    moved: Result<Shifted<A>, ChargeFault>,
) -> Result<Outcome, AllocError> {
    match moved {
        Err(fault) => return say_fault(said, fault),
        Ok(moved) => {
            said.push_str("from ")?;
            push_escaped(said, moved.path.text())?;
            said.push(' ')?;
            push_peaks(said, &moved.peaks)?;
        }
    }
    Ok(Outcome::Answered)
}

/// The old group.
pub(crate) fn say_path<A: Allocator + Clone>(
    said: &mut String,
    left: Option<Result<GroupPath<A>, ChargeFault>>,
) -> Result<Outcome, AllocError> {
    match left {
        None => return say_may_not(said),
        Some(Err(fault)) => return say_fault(said, fault),
        Some(Ok(path)) => {
            said.push_str("from ")?;
            push_escaped(said, path.text())?;
        }
    }
    Ok(Outcome::Answered)
}

/// The processes that were removed.
pub(crate) fn say_lost<A: Allocator + Clone>(
    said: &mut String,
    taken: Result<LostList<A>, ChargeFault>,
) -> Result<Outcome, AllocError> {
    match taken {
        Err(fault) => return say_fault(said, fault),
        Ok(list) => {
            said.push_str("killed")?;
            for lost in list.as_slice() {
                let number = lost.pid.get();
                write!(said, " {number}")?;
            }
        }
    }
    Ok(Outcome::Answered)
}

pub(crate) fn say_members<A: Allocator>(
    said: &mut String,
    members: Result<Option<Vec<Pid, A>>, AllocError>,
) -> Result<Outcome, AllocError> {
    match members {
        Err(AllocError) => return Ok(Outcome::Refused),
        Ok(None) => said.push_str("no group")?,
        Ok(Some(pids)) => {
            said.push_str("processes")?;
            for pid in pids.iter() {
                let number = pid.get();
                write!(said, " {number}")?;
            }
        }
    }
    Ok(Outcome::Answered)
}

pub(crate) fn say_number(said: &mut String, number: Option<u64>) -> Result<Outcome, AllocError> {
    if let Some(number) = number {
        write!(said, "{number}")?;
    }
    Ok(Outcome::Answered)
}

pub(crate) fn say_flag(said: &mut String, flag: Option<bool>) -> Result<Outcome, AllocError> {
    if let Some(flag) = flag {
        write!(said, "{flag}")?;
    }
    Ok(Outcome::Answered)
}

/// The local total and the total of a group.
pub(crate) fn say_totals(said: &mut String, attr: Option<&Attr>) -> Result<Outcome, AllocError> {
    match attr {
        None => Ok(Outcome::Answered),
        Some(attr) => say_attr(said, Ok(*attr)),
    }
}

pub(crate) fn say_home<A: Allocator + Clone>(
    said: &mut String,
    home: Option<&GroupPath<A>>,
) -> Result<Outcome, AllocError> {
    if let Some(path) = home {
        push_escaped(said, path.text())?;
    }
    Ok(Outcome::Answered)
}

/// The same outcome, for a call that may keep memory where it is refused: if the second of two processes is refused, the
/// first is removed again, and the table of processes keeps the memory of its lists.
pub(crate) fn kept(outcome: Result<Outcome, AllocError>) -> Result<Outcome, AllocError> {
    match outcome {
        Ok(Outcome::Refused) => Ok(Outcome::RefusedAndKept),
        _ => outcome,
    }
}
