//! Short byte strings that are stored in the value itself; longer ones are stored in an allocation.
//!
//! - `InlineBytes<A>` is a list of bytes, in three words. Up to `INLINE_MAX` bytes need no allocation; longer lists are stored
//!   in a vector over any allocator.
//! - Values can share such a vector: `share` makes another value that owns it too. Each value has a length of its own, so
//!   `truncate` changes only the value that it is called on. The last owner frees the vector. Values that share one may be in
//!   different threads.
//! - Only `copy_of`, `copy` and `joined` allocate, and only for more than `INLINE_MAX` bytes: twice, the vector and its count of
//!   owners. They return `AllocError` only if an allocation fails; `share` does if a vector has 2^63 owners.
//! - Every call is at most linear in the bytes.
//!
//! Not promised: that a list becomes inline when `truncate` makes it short, or that it then gives memory back.
//!
//! `specs/Bytes.antt` defines the bytes of a value; the module `laws` says what that definition means.
#![tactic(auto)]

mod bytes;
pub mod laws;
mod share;

pub use bytes::{INLINE_MAX, InlineBytes};
