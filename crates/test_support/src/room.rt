//! A heap with little memory left.

ghost use Rattle.std.specs.Prelude.{◌≤◌, ◌-◌, IfOk, length};
ghost use Rattle.std.specs.List.{All};
ghost use Rattle.std.specs.Vec.{vec_capacity};

use linked_list_allocator::LocalHeap;
use std::alloc::{AllocError, Global};

/// The bytes of a block: the least that a heap allocates.
pub const BLOCK_SIZE: usize = 16;

/// The greatest number of blocks to fill.
pub const BLOCKS_MAX: usize = 20_000;

/// The result of a call in a heap with little memory.
#[derive(Clone, Copy, PartialEq, Eq, Debug)]
pub enum Tried {
    /// It returned out of memory.
    Refused,
    /// It returned the same as with enough memory.
    Answered,
    /// It did something else.
    Other,
}

/// Blocks that fill the free memory of the heap, except for `room` blocks of `BLOCK_SIZE` bytes each. Dropping them frees it
/// again.
///
/// # Errors
///
/// `AllocError` if the list of blocks cannot be allocated.
pub fn all_but<'a>(
    alloc: Global,
    heap: &'a LocalHeap,
    room: usize,
) -> Result<Vec<Vec<u8, &'a LocalHeap>>, AllocError>
    ensures few { IfOk result (λ blocks. length blocks.items ≤ BLOCKS_MAX - room) }
    ensures whole { IfOk result (λ blocks. All (λ block. BLOCK_SIZE ≤ vec_capacity block) blocks.items) }
{
    let mut blocks = Vec::new(alloc);
    for _ in 0..BLOCKS_MAX {
        match Vec::with_capacity(heap, BLOCK_SIZE) {
            Ok(block) => blocks.push(block)?,
            Err(AllocError) => break,
        }
    }
    let taken = blocks.len().saturating_sub(room);
    blocks.truncate(taken);
    Ok(blocks)
}
