//! Calls with ample memory, and calls with each allocation refused.

ghost use Rattle.std.specs.Thread.{IsSync};

use crate::cases::{Case, CaseFault, Group};
use crate::room::{BLOCKS_MAX, all_but};
use crate::suite::Tally;
use linked_list_allocator::LocalHeap;
use std::alloc::{AllocError, Global};
use std::sync::Wait;
use std::thread::Threads;

/// How a call ended.
#[derive(Clone, Copy, Debug, PartialEq, Eq)]
pub enum Outcome {
    /// The answer was appended.
    Answered,
    /// It was out of memory, and left the subject and its memory as they were.
    Refused,
    /// It was out of memory, and left what can be read of the subject as it was. The subject may keep memory.
    RefusedAndKept,
}

/// What calls are made on.
pub trait Subject {
    /// Makes the call, and appends its answer, with the escapes of case files and without a line feed.
    ///
    /// # Errors
    ///
    /// `Malformed` if the words are not those of a call; `OutOfMemory` if something beside the subject cannot be allocated.
    fn call<R: Threads + Wait + Sync>(
        &mut self,
        rt: &R,
        alloc: Global,
        case: &Case,
        said: &mut String,
    ) -> Result<Outcome, CaseFault>
        requires { IsSync R.row };

    /// Appends all that can be read of the subject. Takes memory only from this allocator.
    ///
    /// # Errors
    ///
    /// `AllocError` when out of memory.
    fn show(&mut self, alloc: Global, text: &mut String) -> Result<(), AllocError>;
}

/// A subject in a heap where allocations are refused, and one elsewhere on which the same calls are made.
#[derive(Drop)]
pub struct Twins<S: Drop, T: Drop> {
    pub in_heap: S,
    pub ample: T,
}

/// The heap, and how many blocks of room are left out: from the first number to before the second.
#[derive(Clone, Copy)]
struct Room<'a> {
    heap: &'a LocalHeap,
    gap: (usize, usize),
}

/// Makes the call. Words that are not those of a call are answered by `malformed`.
fn make<S: Subject, R: Threads + Wait + Sync>(
    rt: &R,
    alloc: Global,
    subject: &mut S,
    case: &Case,
) -> Result<(Outcome, String), AllocError> {
    let mut said = String::new(alloc);
    match subject.call(rt, alloc, case, &mut said) {
        Ok(outcome) => {
            if said.is_empty() && outcome == Outcome::Answered {
                said.push_str("nothing")?;
            }
            Ok((outcome, said))
        }
        Err(CaseFault::Malformed) => {
            Ok((Outcome::Answered, String::from_str(alloc, "malformed")?))
        }
        Err(CaseFault::OutOfMemory) => Err(AllocError),
    }
}

/// All that can be read of the subject.
fn shown<S: Subject>(alloc: Global, subject: &mut S) -> Result<String, AllocError> {
    let mut text = String::new(alloc);
    subject.show(alloc, &mut text)?;
    Ok(text)
}

/// Makes the call with ample memory. Returns whether it passed.
fn passes<S: Subject, R: Threads + Wait + Sync>(
    rt: &R,
    alloc: Global,
    subject: &mut S,
    case: &Case,
    tally: &mut Tally,
) -> Result<bool, AllocError> {
    let (outcome, said) = make(rt, alloc, subject, case)?;
    if outcome != Outcome::Answered {
        tally.fail(case, "with ample memory out of memory", "")?;
        return Ok(false);
    }
    let is_wanted = said.as_str() == case.answer.as_str();
    if !is_wanted {
        tally.fail(case, "said ", said.as_str())?;
    }
    Ok(is_wanted)
}

/// Makes the calls in order with ample memory, up to the first that fails.
///
/// # Errors
///
/// `AllocError` if something beside the subject cannot be allocated.
pub fn run_ample<S: Subject, R: Threads + Wait + Sync>(
    rt: &R,
    alloc: Global,
    subject: &mut S,
    group: &Group,
    tally: &mut Tally,
) -> Result<(), AllocError> {
    for case in group.cases.iter() {
        tally.count();
        if !passes(rt, alloc, subject, case, tally)? {
            return Ok(());
        }
    }
    Ok(())
}

/// Makes the call in the heap with room for no block, then for one and so on until it is answered. Returns how many calls
/// were refused; None if one of them failed.
fn refusals<S: Subject, R: Threads + Wait + Sync>(
    rt: &R,
    alloc: Global,
    room: Room,
    subject: &mut S,
    case: &Case,
    tally: &mut Tally,
) -> Result<Option<usize>, AllocError> {
    let Room { heap, gap } = room;
    let before = shown(alloc, subject)?;
    let mut blocks = all_but(alloc, heap, 0)?;
    for room in 0..BLOCKS_MAX {
        if gap.0 <= room && room < gap.1 {
            drop(blocks.pop());
            continue;
        }
        let full = heap.used();
        let (outcome, said) = make(rt, alloc, subject, case)?;
        if outcome == Outcome::Answered {
            if said.as_str() == case.answer.as_str() {
                return Ok(Some(room));
            }
            tally.fail(case, "said ", said.as_str())?;
            return Ok(None);
        }
        if outcome == Outcome::Refused && heap.used() != full {
            tally.fail(case, "a refusal changed the heap", "")?;
            return Ok(None);
        }
        let after = shown(alloc, subject)?;
        if after.as_str() != before.as_str() {
            tally.fail(case, "a refusal changed the subject to ", after.as_str())?;
            return Ok(None);
        }
        if blocks.pop().is_none() {
            break;
        }
    }
    tally.fail(case, "out of memory with the whole heap", "")?;
    Ok(None)
}

/// Whether the call passes in the heap, and with ample memory, and leaves both subjects alike.
fn passes_both<S: Subject + Drop, T: Subject + Drop, R: Threads + Wait + Sync>(
    rt: &R,
    alloc: Global,
    room: Room,
    twins: &mut Twins<S, T>,
    case: &Case,
    tally: &mut Tally,
) -> Result<bool, AllocError> {
    let Some(refused) = refusals(rt, alloc, room, &mut twins.in_heap, case, tally)? else {
        return Ok(false);
    };
    if (refused == 0) != case.is_free {
        let what = match case.is_free {
            true => "takes memory",
            false => "takes no memory",
        };
        tally.fail(case, what, "")?;
        return Ok(false);
    }
    if !passes(rt, alloc, &mut twins.ample, case, tally)? {
        return Ok(false);
    }
    let in_heap = shown(alloc, &mut twins.in_heap)?;
    let with_ample = shown(alloc, &mut twins.ample)?;
    let is_alike = in_heap.as_str() == with_ample.as_str();
    if !is_alike {
        tally.fail(
            case,
            "with ample memory another subject: ",
            with_ample.as_str(),
        )?;
    }
    Ok(is_alike)
}

/// Makes the calls in order on the subject in this heap with each allocation refused, and on its twin with ample memory, up
/// to the first that fails.
///
/// # Errors
///
/// `AllocError` if something beside the subjects cannot be allocated.
pub fn run_refused<S: Subject + Drop, T: Subject + Drop, R: Threads + Wait + Sync>(
    rt: &R,
    alloc: Global,
    heap: &LocalHeap,
    twins: &mut Twins<S, T>,
    group: &Group,
    tally: &mut Tally,
) -> Result<(), AllocError> {
    let room = Room {
        heap,
        gap: group.gap,
    };
    for case in group.cases.iter() {
        tally.count();
        if !passes_both(rt, alloc, room, twins, case, tally)? {
            return Ok(());
        }
    }
    Ok(())
}

/// After the subject is dropped: reports a heap that is not empty.
///
/// # Errors
///
/// `AllocError` if the report cannot be allocated.
pub fn see_empty(heap: &LocalHeap, group: &Group, tally: &mut Tally) -> Result<(), AllocError> {
    if heap.used() == 0 {
        return Ok(());
    }
    match group.cases.last() {
        Some(case) => tally.tell(
            case.line,
            "the subject left memory in the heap when dropped",
        ),
        None => Ok(()),
    }
}
