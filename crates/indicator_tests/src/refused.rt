//! Cores in heaps that are too small.
//!
//! `refused EVENTS`: the events are replayed on a new core of one slot with seven nodes, in a heap with room for no block, then
//! for one and so on until all are done. The answer has what is found each time, without repetitions, separated by ` / `:
//! where the replay stopped and why, the words and the sum, whether helper 1 can be joined, and then, with room again, the
//! same after a replay of the events that are left.

ghost use Rattle.std.specs.Prelude.{◌≡◌, ◌≤◌, ◌⊎◌};

use crate::cores::{Shaped, name_of};
use crate::events::{event_words, events};
use linked_list_allocator::LocalHeap;
use snzi_core::Event;
use std::alloc::{AllocError, Global};
use test_support::{Case, CaseFault, all_but};

/// Whether a new core fits in a heap of this size, and what it leaves there.
pub(crate) fn core_fits(
    alloc: Global,
    bytes: usize,
    slots: u16,
    nodes: u8,
) -> Result<(bool, usize), AllocError>
    requires slots { 1 ≤ slots }
    requires nodes { (nodes ≡ 1) ⊎ (nodes ≡ 3) ⊎ (nodes ≡ 7) ⊎ (nodes ≡ 15) }
{
    let heap = LocalHeap::new(alloc, bytes)?;
    let fits = Shaped::new(&heap, slots, nodes).is_ok();
    Ok((fits, heap.used()))
}

/// What is found with room for this many blocks. Returns whether all events were done.
fn put_room(
    alloc: Global,
    heap: &LocalHeap,
    room: usize,
    events: &[Event<'_>],
    said: &mut String,
) -> Result<bool, AllocError> {
    let mut core = Shaped::new(heap, 1, 7)?;
    let blocks = all_but(alloc, heap, room)?;
    let stop = core.put_run(events, said)?;
    drop(blocks);
    let sum = core.sum(0).unwrap_or(0);
    let join = match core.run(&[Event::Join { helper: 1 }]) {
        Some((_, unlawful)) => name_of(unlawful),
        None => "ok",
    };
    write!(said, " sum {sum}, join {join}")?;
    if let Some((done, _)) = stop {
        said.push_str(", then")?;
        core.put_run(&events[done.min(events.len())..], said)?;
        let sum = core.sum(0).unwrap_or(0);
        write!(said, " sum {sum}")?;
    }
    Ok(stop.is_none())
}

/// What is found with room for no block, for one and so on, until all events are done.
pub(crate) fn each_room(alloc: Global, case: &Case, said: &mut String) -> Result<(), CaseFault> {
    let words = event_words(alloc, case, 1)?;
    let events = events(alloc, case, words.as_slice(), 0)?;
    let heap = LocalHeap::new(alloc, 4096)?;
    let mut last = String::new(alloc);
    for room in 0..200usize {
        let mut found = String::new(alloc);
        let is_whole = put_room(alloc, &heap, room, events.as_slice(), &mut found)?;
        if heap.used() > 0 {
            found.push_str(", memory is left")?;
        }
        if found.as_str() != last.as_str() {
            if !said.is_empty() {
                said.push_str(" / ")?;
            }
            said.push_str(found.as_str())?;
        }
        if is_whole {
            break;
        }
        last = found;
    }
    Ok(())
}
