//! The path of a child: a path with one more name.

ghost use Rattle.std.specs.Prelude.{◌≡◌, ◌≢◌, ◌≤◌, [], ◌∷◌, ◌++◌, length, IfErr, IfOk};
ghost use Rattle.inline_bytes.specs.declared.bytes.TheConstants.{INLINE_MAX};
ghost use Rattle.flat_model.specs.PathText.{path_text, spelled, child_fault, child_path};
ghost use Rattle.group_path.specs.FollowsGrammar.{FollowsGrammar, checked};

use crate::fault::PathFault;
use crate::grammar::{DEPTH_MAX, TEXT_MAX, check_name};
use crate::path::GroupPath;
use inline_bytes::InlineBytes;
use std::alloc::Allocator;

impl<A: Allocator + Clone> GroupPath<A> {
    /// The child of this group with the given name. Linear in both texts.
    ///
    /// # Errors
    ///
    /// The first of these that applies: `EmptyName`, `BadByte` with the byte's index in the name, `NameTooLong`, `DotName`,
    /// `Reserved`, `TooDeep`, `TooLong`, `OutOfMemory`.
    pub fn child<B: Allocator + Clone>(
        &self,
        alloc: B,
        name: &[u8],
    ) -> Result<GroupPath<B>, PathFault>
        ensures found { IfOk result (λ p. p ≡ self.now ++ name.now ∷ []) }
        ensures first { FollowsGrammar result (child_path self.now name.now) }

        // A text this short needs no allocation.
        ensures few { length (path_text (self.now ++ name.now ∷ [])) ≤ INLINE_MAX → IfErr result (λ fault. fault ≢ PathFault.OutOfMemory) }
    {
        let _ = &self.text;
        self.check_child(name)?;
        let text = InlineBytes::joined(alloc, self.spelled(), b'/', name)?;
        Ok(GroupPath { text })
    }

    /// Tests one more name.
    #[tactic(auto, unfolding(flat_model::specs::PathText::child_fault))]
    fn check_child(&self, name: &[u8]) -> Result<(), PathFault>
        ensures { result ≡ checked (child_fault self.now name.now) }
    {
        check_name(0, name)?;
        if self.depth() >= DEPTH_MAX {
            return Err(PathFault::TooDeep);
        }
        if self.spelled().len() + 1 + name.len() > TEXT_MAX {
            return Err(PathFault::TooLong);
        }
        Ok(())
    }

    /// The text with a slash before each name. The root's is empty.
    fn spelled(&self) -> &[u8]
        ensures { result.now ≡ spelled self.now }
    {
        let text = self.text.as_slice();
        if text.len() > 1 { text } else { &text[..0] }
    }
}
