//! Copying a node into another allocator.

ghost use Rattle.std.specs.Prelude.{◌≡◌, IfOk};

use crate::node::{Inner, Node};
use inline_bytes::InlineBytes;
use std::alloc::{AllocError, Allocator};

impl<A: Allocator> Node<A> {
    /// Copies the group and the groups below it into another allocator.
    pub(crate) fn copy<B: Allocator + Clone + Drop>(&self, alloc: B) -> Result<Node<B>, AllocError>
        ensures { IfOk result (λ n. n ≡ self.now) }
    {
        let source = &*self.inner;
        let name = InlineBytes::copy_of(alloc.clone()?, source.name.as_slice())?;
        let mut children = Vec::new(alloc.clone()?);
        for child in &source.children {
            children.push(child.copy(alloc.clone()?)?)?;
        }
        let inner = Box::new(
            alloc,
            Inner {
                name,
                attr: source.attr,
                descendants: source.descendants,
                children,
            },
        )?;
        let number = self.number;
        Ok(Node { number, inner })
    }
}
