//! Rehearsals.

use crate::commands::{command_of, push_reply};
use crate::engine::Tested;
use bumpalo::Bump;
use linked_list_allocator::LocalHeap;
use std::alloc::{AllocError, Allocator, Global};
use std::sync::Wait;
use std::thread::Threads;
use test_support::{BLOCK_SIZE, Case, CaseFault, Outcome};
use undo_journal::Reply;

/// The bytes of the heap under an arena.
const HEAP_SIZE: usize = 1_048_576;

/// The replies, one a line.
fn text_of(alloc: Global, replies: &[Reply<Global>]) -> Result<String, AllocError> {
    let mut text = String::new(alloc);
    for reply in replies {
        push_reply(alloc, &mut text, reply)?;
        text.push_str("\n")?;
    }
    Ok(text)
}

impl<E: Allocator + Clone, A: Allocator + Clone> Tested<E, A> {
    /// Adds the command to those that are rehearsed, in an arena. Appends the reply to it.
    fn rehearse_one_more<R: Threads + Wait + Sync>(
        &mut self,
        rt: &R,
        alloc: Global,
        said: &mut String,
        case: &Case,
    ) -> Result<Outcome, CaseFault> {
        let command = command_of(alloc, case, 1)?;
        let command = command.copy(self.home.clone()?)?;
        self.planned
            .push(command)
            .map_err(|_| CaseFault::OutOfMemory)?;
        let arena = Bump::new(alloc);
        let replies = self
            .engine
            .rehearse(rt, alloc, &arena, self.planned.as_slice())?;
        let text = text_of(alloc, replies.as_slice())?;
        match text.as_str().strip_prefix(self.told.as_str()) {
            Some(reply) => said.push_str(reply.trim_end())?,
            None => said.push_str("other replies to the lines before it")?,
        }
        self.told = text;
        Ok(Outcome::Answered)
    }

    /// Whether a rehearsal in an arena over the heap has the same replies, and takes memory of the heap.
    fn is_told_over<R: Threads + Wait + Sync>(
        &self,
        rt: &R,
        alloc: Global,
        heap: &LocalHeap,
    ) -> Result<bool, AllocError> {
        let arena = Bump::new(heap);
        let replies = self
            .engine
            .rehearse(rt, alloc, &arena, self.planned.as_slice())?;
        let text = text_of(alloc, replies.as_slice())?;
        Ok(heap.used() > 0 && text.as_str() == self.told.as_str())
    }

    fn rehearse_over_a_heap<R: Threads + Wait + Sync>(
        &self,
        rt: &R,
        alloc: Global,
        said: &mut String,
    ) -> Result<Outcome, CaseFault> {
        let heap = LocalHeap::new(alloc, HEAP_SIZE)?;
        let is_told = self.is_told_over(rt, alloc, &heap)?;
        said.push_str(if is_told {
            "the same"
        } else {
            "something else"
        })?;
        if heap.used() == 0 {
            said.push_str(", and the heap is empty")?;
        }
        Ok(Outcome::Answered)
    }

    /// Rehearses in an arena that may not grow.
    fn rehearse_without_room<R: Threads + Wait + Sync>(
        &self,
        rt: &R,
        alloc: Global,
        said: &mut String,
    ) -> Result<Outcome, CaseFault> {
        let mut arena = Bump::new(alloc);
        arena.set_allocation_limit(Some(0));
        let is_refused = self
            .engine
            .rehearse(rt, alloc, &arena, self.planned.as_slice())
            .is_err();
        said.push_str(if is_refused {
            "out of memory"
        } else {
            "something else"
        })?;
        if arena.reset() == Ok(()) {
            said.push_str(", and the arena is empty")?;
        }
        Ok(Outcome::Answered)
    }

    /// The text of the replies of a rehearsal in a heap of that size; None if it is out of memory. The second value says
    /// whether the heap is empty then.
    fn told_in<R: Threads + Wait + Sync>(
        &self,
        rt: &R,
        alloc: Global,
        size: usize,
    ) -> Result<(Option<String>, bool), AllocError> {
        let heap = LocalHeap::new(alloc, size)?;
        let replies = self
            .engine
            .rehearse(rt, alloc, &heap, self.planned.as_slice());
        let text = match replies {
            Ok(replies) => Some(text_of(alloc, replies.as_slice())?),
            Err(AllocError) => None,
        };
        Ok((text, heap.used() == 0))
    }

    /// Rehearses in heaps that are larger by a block each time, until one is large enough: each allocation is refused once.
    /// Each time the heap is empty afterwards.
    fn rehearse_in_small_heaps<R: Threads + Wait + Sync>(
        &self,
        rt: &R,
        alloc: Global,
        said: &mut String,
    ) -> Result<Outcome, CaseFault> {
        let depth = self.engine.depth();
        for blocks in 2..HEAP_SIZE / BLOCK_SIZE {
            let (text, is_empty) = self.told_in(rt, alloc, blocks * BLOCK_SIZE)?;
            if !is_empty || self.engine.depth() != depth {
                said.push_str("it left something")?;
                return Ok(Outcome::Answered);
            }
            if let Some(text) = text {
                let is_told = blocks > 2 && text.as_str() == self.told.as_str();
                said.push_str(if is_told {
                    "the same after refusals"
                } else {
                    "something else"
                })?;
                return Ok(Outcome::Answered);
            }
        }
        Ok(Outcome::RefusedAndKept)
    }

    /// A call on the commands that are rehearsed.
    pub(crate) fn rehearse<R: Threads + Wait + Sync>(
        &mut self,
        rt: &R,
        alloc: Global,
        said: &mut String,
        case: &Case,
    ) -> Result<Outcome, CaseFault> {
        match str::from_utf8(case.word(0)).unwrap_or("") {
            "rehearsed" => self.rehearse_one_more(rt, alloc, said, case),
            "rehearse_over_a_heap" => self.rehearse_over_a_heap(rt, alloc, said),
            "rehearse_without_room" => self.rehearse_without_room(rt, alloc, said),
            "rehearse_in_small_heaps" => self.rehearse_in_small_heaps(rt, alloc, said),
            _ => Err(CaseFault::Malformed),
        }
    }
}
