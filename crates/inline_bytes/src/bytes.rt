//! The type `InlineBytes`: its storage, its constructors and its reader.

ghost use Rattle.std.specs.Prelude.{◌≡◌, ◌+◌, ◌<◌, ◌≤◌, ◌^◌, ◌∷◌, ◌++◌, IfOk, IsOk, length, take};

use std::alloc::{AllocError, Allocator, Global};
use std::marker::Model;
use std::mem::size_of;
use std::sync::Arc;

/// The greatest number of bytes stored inline. With their length and the kind of storage they fill three words.
pub const INLINE_MAX: usize = 22;

/// Where the bytes are stored.
#[derive(Drop)]
pub(crate) enum Storage<A: Allocator> {
    /// Inline: the first `len` of these bytes.
    Inline {
        bytes: [u8; INLINE_MAX],
        len: u8,
    },
    /// The first `len` bytes of a vector that several values can own. No call changes it.
    Shared {
        text: Arc<Vec<u8, A>, A>,
        len: usize,
    },
}

/// A list of bytes. Up to `INLINE_MAX` of them are stored in the value itself.
pub struct InlineBytes<A: Allocator> {
    pub(crate) storage: Storage<A>,
}

// A path is such a value, and each process and each recorded command has one.
const _: () = prove!(size_of::<InlineBytes<Global>>() == 24);

impl<A: Allocator> Model for InlineBytes<A> {
    ghost use Rattle.std.specs.Prelude.{ℕ, List};
    ghost use Rattle.inline_bytes.specs.Bytes.{bytes_in, IsSound};

    ghost Value = { List ℕ };

    ghost view = { λ b. bytes_in b.storage };

    ghost invariant = { λ b. IsSound b.storage };
}

// The explicit drop hides the storage, so the proof of a function that drops such a value has one case instead of two.
impl<A: Allocator> Drop for InlineBytes<A> {
    fn drop(self) {
        let Self { storage } = self;
        drop(storage);
    }
}

impl<A: Allocator + Clone> InlineBytes<A> {
    /// Copies the bytes into a new value. Linear in their number.
    ///
    /// # Errors
    ///
    /// `AllocError` if there are more than `INLINE_MAX` bytes and one of the two allocations for them fails.
    pub fn copy_of(alloc: A, bytes: &[u8]) -> Result<InlineBytes<A>, AllocError>
        ensures same { IfOk result (λ b. b ≡ bytes.now) }
        ensures few { length bytes.now ≤ INLINE_MAX → IsOk result }
    {
        let len = bytes.len();
        if len <= INLINE_MAX {
            return Ok(InlineBytes::inline(bytes));
        }
        let heap = Vec::from_slice(alloc.clone()?, bytes)?;
        let text = Arc::new(alloc, heap)?;
        let storage = Storage::Shared { text, len };
        Ok(InlineBytes { storage })
    }

    /// Joins `front`, one byte and `back`. Linear in their length.
    ///
    /// # Errors
    ///
    /// `AllocError` if the result has more than `INLINE_MAX` bytes and one of the two allocations for them fails.
    pub fn joined(
        alloc: A,
        front: &[u8],
        between: u8,
        back: &[u8],
    ) -> Result<InlineBytes<A>, AllocError>
        requires { length front.now + 1 + length back.now < 2 ^ 64 }
        ensures same { IfOk result (λ b. b ≡ front.now ++ between ∷ back.now) }
        ensures few { length front.now + 1 + length back.now ≤ INLINE_MAX → IsOk result }
    {
        let len = front.len() + 1 + back.len();
        if len > INLINE_MAX {
            let mut heap = Vec::with_capacity(alloc.clone()?, len)?;
            heap.extend_from_slice(front)?;
            heap.push(between)?;
            heap.extend_from_slice(back)?;
            let text = Arc::new(alloc, heap)?;
            let storage = Storage::Shared { text, len };
            return Ok(InlineBytes { storage });
        }
        Ok(InlineBytes::inline_joined(front, between, back))
    }
}

impl<A: Allocator> InlineBytes<A> {
    /// Joins `front`, one byte and `back` inline, if they fit.
    fn inline_joined(front: &[u8], between: u8, back: &[u8]) -> InlineBytes<A>
        requires { length front.now + 1 + length back.now ≤ INLINE_MAX }
        ensures { result ≡ front.now ++ between ∷ back.now }
    {
        let mut bytes = [0u8; INLINE_MAX];
        let at = front.len();
        let end = at + 1 + back.len();
        bytes[..at].copy_from_slice(front);
        bytes[at] = between;
        bytes[at + 1..end].copy_from_slice(back);
        let len = end as u8;
        let storage = Storage::Inline { bytes, len };
        InlineBytes { storage }
    }

    /// Stores a few bytes inline. Allocates nothing.
    pub fn inline(few: &[u8]) -> InlineBytes<A>
        requires { length few.now ≤ INLINE_MAX }
        ensures { result ≡ few.now }
    {
        let mut bytes = [0u8; INLINE_MAX];
        bytes[..few.len()].copy_from_slice(few);
        let len = few.len() as u8;
        let storage = Storage::Inline { bytes, len };
        InlineBytes { storage }
    }

    /// The bytes in order.
    pub fn as_slice(&self) -> &[u8]
        ensures { result.now ≡ self.now }
    {
        match &self.storage {
            Storage::Inline { bytes, len } => &bytes[..usize::from(*len)],
            Storage::Shared { text, len } => &text.as_slice()[..*len],
        }
    }

    /// Keeps the first `n` bytes, or all if there are no more than `n`. Allocates nothing. Values that share the vector keep
    /// their bytes.
    pub fn truncate(&mut self, n: usize)
        ensures { self.new ≡ take n self.old }
    {
        match &mut self.storage {
            Storage::Inline { bytes: _, len } => {
                if n < usize::from(*len) {
                    *len = n as u8;
                }
            }
            Storage::Shared { text: _, len } => {
                if n < *len {
                    *len = n;
                }
            }
        }
    }
}
