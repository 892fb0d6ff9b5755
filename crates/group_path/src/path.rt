//! A path and its readers.

ghost use Rattle.std.specs.Prelude.{◌≡◌, ◌≢◌, ℕ, ◌<◌, ◌≤◌, [], true, if◌then◌else◌, length, take, IfErr, IfOk, IsOk, IsOkAnd, MatchResult, nat_le};
ghost use Rattle.inline_bytes.specs.declared.bytes.TheConstants.{INLINE_MAX};
ghost use Rattle.flat_model.specs.Path.{Path, at_or_below, is_root, parent, same_path};
ghost use Rattle.flat_model.specs.PathText.{IsPath, path_text, read_path};
ghost use Rattle.group_path.specs.FollowsGrammar.{FollowsGrammar};

use crate::fault::PathFault;
use crate::grammar::{DEPTH_MAX, check_text};
use crate::names::{Names, slashes};
use inline_bytes::{INLINE_MAX, InlineBytes};
use std::alloc::{AllocError, Allocator};
use std::marker::Model;

/// The path of a group, from the root down. The root is `/`.
#[derive(Drop)]
pub struct GroupPath<A: Allocator + Clone> {
    pub(crate) text: InlineBytes<A>,
}

impl<A: Allocator + Clone> Model for GroupPath<A> {
    ghost use Rattle.std.specs.Prelude.{◌≡◌, ℕ, List, None};
    ghost use Rattle.flat_model.specs.PathText.{names_in, path_fault};

    ghost Value = { List (List ℕ) };

    ghost view = { λ p. names_in p.text };

    ghost invariant = { λ p. path_fault p.text ≡ None };
}

impl<A: Allocator + Clone> GroupPath<A> {
    /// The path of the root, `/`. Allocates nothing, so it never fails.
    pub fn root(alloc: A) -> Result<GroupPath<A>, AllocError>
        ensures { IsOkAnd result (λ p. p ≡ []) }
    {
        let text = InlineBytes::copy_of(alloc, b"/")?;
        Ok(GroupPath { text })
    }

    /// Reads a path. Linear in the text.
    ///
    /// # Errors
    ///
    /// The first of these that applies: `NotRooted`; `TooLong`; then for each name from the left `TooDeep` if it is the
    /// 33rd, `EmptyName`, `BadByte` with the byte's index in the whole text, `NameTooLong`, `DotName`, `Reserved`;
    /// `OutOfMemory`.
    pub fn read(alloc: A, text: &[u8]) -> Result<GroupPath<A>, PathFault>
        // The result is a path of the grammar, and the text is its text.
        ensures found { IfOk result (λ p. IsPath p × (text.now ≡ path_text p)) }

        // The text of every path of the grammar is read as that path, unless memory runs out.
        ensures only { (p : Path) → IsPath p → text.now ≡ path_text p → MatchResult result (λ q. q ≡ p) (λ fault. fault ≡ PathFault.OutOfMemory) }

        // Which fault is returned.
        ensures first { FollowsGrammar result (read_path text.now) }

        // A text this short needs no allocation.
        ensures few { length text.now ≤ INLINE_MAX → IfErr result (λ fault. fault ≢ PathFault.OutOfMemory) }
    {
        check_text(text)?;
        let text = InlineBytes::copy_of(alloc, text)?;
        Ok(GroupPath { text })
    }

    /// Gives callers that every path is in the grammar: the bounds on its names, on their bytes and on its text. Proof only.
    pub fn known(&self)
        ensures { IsPath self.now }
    {
        let _ = &self.text;
    }

    /// The text, with slashes.
    pub fn text(&self) -> &[u8]
        ensures { result.now ≡ path_text self.now }
    {
        self.text.as_slice()
    }

    /// The names from the root down.
    pub fn names(&self) -> Names<'_>
        ensures { result ≡ self.now }
    {
        let _ = &self.text;
        self.first_names(DEPTH_MAX)
    }

    /// The first `n` names from the root down, or all if there are no more than `n`.
    pub fn first_names(&self, n: usize) -> Names<'_>
        ensures { result ≡ take n self.now }
    {
        let text = self.text.as_slice();
        if text.len() > 1 {
            Names::of(Some(&text[1..]), n)
        } else {
            Names::of(None, n)
        }
    }

    /// The number of names; 0 for the root. Linear in the text.
    pub fn depth(&self) -> usize
        ensures { result ≡ length self.now }
    {
        let _ = &self.text;
        let text = self.text.as_slice();
        if text.len() > 1 {
            usize::from(slashes(text))
        } else {
            0
        }
    }

    /// Whether this group is the other one or is below it. Linear in both texts.
    pub fn is_at_or_below<B: Allocator + Clone>(&self, other: &GroupPath<B>) -> bool
        ensures { result ≡ at_or_below self.now other.now }
    {
        let mut mine = self.names();
        for theirs in other.names() {
            match mine.next() {
                Some(name) if name == theirs => {}
                _ => return false,
            }
        }
        true
    }

    /// Whether the two paths are equal, whatever their allocators. Linear in the text.
    pub fn is_same<B: Allocator + Clone>(&self, other: &GroupPath<B>) -> bool
        ensures { result ≡ same_path self.now other.now }
    {
        self.known();
        other.known();
        self.text() == other.text()
    }

    /// The path without its last name; None for the root. None needs no allocation. Linear in the text.
    ///
    /// # Errors
    ///
    /// `AllocError` when out of memory.
    pub fn parent<B: Allocator + Clone>(&self, alloc: B) -> Result<Option<GroupPath<B>>, AllocError>
        ensures root { is_root self.now ≡ true → result ≡ Ok None }
        ensures group { IfOk result (λ p. p ≡ (if is_root self.now then None else Some (parent self.now))) }
        ensures few { length (path_text (parent self.now)) ≤ INLINE_MAX → IsOk result }
    {
        let depth = self.depth();
        if depth == 0 {
            return Ok(None);
        }
        let parent = self.front(alloc, depth - 1)?;
        Ok(Some(parent))
    }

    /// The path of the first `n` names, or of all if there are no more than `n`, in another allocator. It gives the group that
    /// a call names by a number of names. It copies only the text of these names. Linear in that text.
    ///
    /// # Errors
    ///
    /// `AllocError` when out of memory. A text of at most `INLINE_MAX` bytes needs no allocation.
    pub fn front<B: Allocator + Clone>(
        &self,
        alloc: B,
        n: usize,
    ) -> Result<GroupPath<B>, AllocError>
        ensures group { IfOk result (λ p. p ≡ take n self.now) }
        ensures few { length (path_text (take n self.now)) ≤ INLINE_MAX → IsOk result }
    {
        let _ = &self.text;
        let text = InlineBytes::copy_of(alloc, &self.text()[..self.prefix_len(n)])?;
        Ok(GroupPath { text })
    }

    /// A copy of the path in another allocator. Linear in the text.
    ///
    /// # Errors
    ///
    /// `AllocError` when out of memory. A text of at most `INLINE_MAX` bytes needs no allocation.
    pub fn copy<B: Allocator + Clone>(&self, alloc: B) -> Result<GroupPath<B>, AllocError>
        // The path is the same, and only a text that is not inline can run out of memory.
        ensures { MatchResult result (λ p. p ≡ self.now) (λ _. INLINE_MAX < length (path_text self.now)) }
    {
        let text = self.text.copy(alloc)?;
        Ok(GroupPath { text })
    }

    /// The same path again, in the same allocator. A text that is not inline is shared. Takes constant time and allocates
    /// nothing.
    ///
    /// # Errors
    ///
    /// `AllocError` if 2^63 paths share the text.
    pub fn share(&self) -> Result<GroupPath<A>, AllocError>
        // The path is the same, and only a text that is not inline can run out of memory.
        ensures { MatchResult result (λ p. p ≡ self.now) (λ _. INLINE_MAX < length (path_text self.now)) }
    {
        let text = self.text.share()?;
        Ok(GroupPath { text })
    }

    /// Whether the text has at most `INLINE_MAX` bytes. A copy of such a path allocates nothing.
    pub fn is_short(&self) -> bool
        ensures { result ≡ nat_le (length (path_text self.now)) INLINE_MAX }
    {
        self.text().len() <= INLINE_MAX
    }

    /// Keeps the first `n` names, and allocates nothing. Paths that share the text keep theirs. Linear in the text of the
    /// names.
    pub fn cut(&mut self, n: usize)
        requires { n ≤ length self.old }
        ensures { self.new ≡ take n self.old }
    {
        let len = self.prefix_len(n);
        self.text.truncate(len);
    }

    /// The number of bytes of the path of the first `n` names.
    fn prefix_len(&self, n: usize) -> usize
        ensures bound { result ≤ length (path_text self.now) }
        ensures value { result ≡ length (path_text (take n self.now)) }
    {
        let _ = &self.text;
        let mut len = 0;
        for name in self.first_names(n) {
            len += 1 + name.len();
        }
        len.max(1)
    }
}
