//! Setting attributes during the descent.

ghost use Rattle.std.specs.Prelude.{◌≡◌};
ghost use Rattle.group_tree.specs.Settings.{NodeSets};

use crate::attr::Attr;
use crate::node::{Node, place};
use group_path::Names;
use std::alloc::Allocator;

impl<A: Allocator> Node<A> {
    /// Sets the attributes of the group at these names from here; false if there is no such group.
    pub(crate) fn set(&mut self, names: Names<'_>, attr: Attr) -> bool
        ensures name { self.new.name ≡ self.old.name }
        ensures groups { NodeSets self.old.groups self.new.groups names.entry attr result }
    {
        let mut names = names;
        match names.next() {
            None => {
                let inner = &mut *self.inner;
                inner.attr = attr;
                true
            }
            Some(name) => match place(&self.inner.children, name) {
                Ok(at) => {
                    let child = &mut self.inner.children[at];
                    child.set(names, attr)
                }
                Err(_) => false,
            },
        }
    }
}
