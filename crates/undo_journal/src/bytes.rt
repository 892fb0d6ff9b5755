//! The bytes of a text in a reply.

ghost use Rattle.std.specs.Prelude.{◌≡◌, IfOk};

use inline_bytes::{INLINE_MAX, InlineBytes};
use std::alloc::{AllocError, Allocator};
use std::marker::Model;

/// The bytes of a text.
pub struct Bytes<A: Allocator + Clone> {
    text: Text<A>,
}

// Where they are: a few in the value itself, others in their vector.
#[derive(Drop)]
enum Text<A: Allocator + Clone> {
    Few(InlineBytes<A>),
    Many(Vec<u8, A>),
}

impl<A: Allocator + Clone> Model for Bytes<A> {
    ghost use Rattle.std.specs.Prelude.{ℕ, List};
    ghost use Rattle.undo_journal.specs.ReplyBytes.{bytes_in};

    ghost Value = { List ℕ };

    ghost view = { λ b. bytes_in b.text };
}

// The explicit drop hides where the bytes are, so the proof of a function that drops such a value has one case instead of two.
impl<A: Allocator + Clone> Drop for Bytes<A> {
    fn drop(self) {
        let Self { text } = self;
        drop(text);
    }
}

impl<A: Allocator + Clone> Bytes<A> {
    /// Takes these bytes. Allocates nothing. A short text is stored inline and its memory freed.
    pub fn of(text: Vec<u8, A>) -> Bytes<A>
        ensures { result ≡ text.items }
    {
        if text.len() > INLINE_MAX {
            let text = Text::Many(text);
            return Bytes { text };
        }
        let text = Text::Few(InlineBytes::inline(text.as_slice()));
        Bytes { text }
    }

    /// The bytes in order.
    pub fn as_slice(&self) -> &[u8]
        ensures { result.now ≡ self.now }
    {
        match &self.text {
            Text::Few(text) => text.as_slice(),
            Text::Many(text) => text.as_slice(),
        }
    }

    /// Copies the bytes into another allocator.
    pub(crate) fn copy<B: Allocator + Clone>(&self, alloc: B) -> Result<Bytes<B>, AllocError>
        ensures { IfOk result (λ b. b ≡ self.now) }
    {
        let text = Text::Few(InlineBytes::copy_of(alloc, self.as_slice())?);
        Ok(Bytes { text })
    }
}
