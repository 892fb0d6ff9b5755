//! Values with the bytes of another one: copies, and values that share its vector.

ghost use Rattle.std.specs.Prelude.{◌≡◌, ◌≤◌, IfOk, IsOk, length};

use crate::bytes::{INLINE_MAX, InlineBytes, Storage};
use std::alloc::{AllocError, Allocator};
use std::sync::Arc;

impl<A: Allocator> InlineBytes<A> {
    /// Copies the bytes into another allocator. Bytes stored inline are copied with their array, whatever their number; others
    /// as by `copy_of`. Linear in the bytes.
    ///
    /// # Errors
    ///
    /// `AllocError` if there are more than `INLINE_MAX` bytes and one of the two allocations for them fails.
    pub fn copy<B: Allocator + Clone>(&self, alloc: B) -> Result<InlineBytes<B>, AllocError>
        ensures same { IfOk result (λ b. b ≡ self.now) }
        ensures few { length self.now ≤ INLINE_MAX → IsOk result }
    {
        match &self.storage {
            Storage::Inline { bytes, len } => {
                let storage = Storage::Inline {
                    bytes: *bytes,
                    len: *len,
                };
                Ok(InlineBytes { storage })
            }
            Storage::Shared { .. } => InlineBytes::copy_of(alloc, self.as_slice()),
        }
    }
}

impl<A: Allocator + Clone> InlineBytes<A> {
    /// Another value with the same bytes, in the same allocator. Both own the vector, if there is one. Takes constant time and
    /// allocates nothing.
    ///
    /// # Errors
    ///
    /// `AllocError` if there are more than `INLINE_MAX` bytes and their vector has 2^63 owners.
    pub fn share(&self) -> Result<InlineBytes<A>, AllocError>
        ensures same { IfOk result (λ b. b ≡ self.now) }
        ensures few { length self.now ≤ INLINE_MAX → IsOk result }
    {
        match &self.storage {
            Storage::Inline { bytes, len } => {
                let storage = Storage::Inline {
                    bytes: *bytes,
                    len: *len,
                };
                Ok(InlineBytes { storage })
            }
            Storage::Shared { text, len } => {
                let len = *len;
                if len <= INLINE_MAX {
                    return Ok(InlineBytes::inline(&text.as_slice()[..len]));
                }
                let text = Arc::try_clone(text)?;
                let storage = Storage::Shared { text, len };
                Ok(InlineBytes { storage })
            }
        }
    }
}
