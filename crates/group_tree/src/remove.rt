//! Removing a group during the descent. A refusal changes nothing.

ghost use Rattle.std.specs.Prelude.{◌≡◌, ◌<◌, ◌∷◌, vec_len};
ghost use Rattle.group_tree.specs.Node.{NodeRemoves, TakesOut};

use crate::attr::Attr;
use crate::fault::TreeFault;
use crate::node::{Node, place};
use group_path::Names;
use std::alloc::Allocator;

impl<A: Allocator> Node<A> {
    /// Removes the group at this name and then these names from here.
    pub(crate) fn remove(&mut self, name: &[u8], names: Names<'_>) -> Result<Attr, TreeFault>
        ensures name { self.new.name ≡ self.old.name }
        ensures groups { NodeRemoves self.old.groups self.new.groups (name.now ∷ names.entry) result }
    {
        let mut names = names;
        match place(&self.inner.children, name) {
            Err(_) => Err(TreeFault::NoGroup),
            Ok(at) => match names.next() {
                None => match take_out(&mut self.inner.children, at) {
                    Ok(attr) => {
                        let descendants = &mut self.inner.descendants;
                        *descendants = descendants.wrapping_sub(1);
                        Ok(attr)
                    }
                    Err(fault) => Err(fault),
                },
                Some(next) => {
                    let inner = &mut *self.inner;
                    let child = &mut inner.children[at];
                    match child.remove(next, names) {
                        Ok(attr) => {
                            let descendants = &mut self.inner.descendants;
                            *descendants = descendants.wrapping_sub(1);
                            Ok(attr)
                        }
                        Err(fault) => Err(fault),
                    }
                }
            },
        }
    }
}

/// Removes a child that has no children.
fn take_out<A: Allocator>(children: &mut Vec<Node<A>, A>, at: usize) -> Result<Attr, TreeFault>
    requires { at < vec_len children.old }
    ensures { TakesOut children.old.items children.new.items at result }
{
    let all = children.as_slice();
    let child = &all[at];
    let leaf = child.is_leaf();
    let attr = child.attr();
    if leaf {
        let _removed = children.remove(at);
        Ok(attr)
    } else {
        Err(TreeFault::HasChildren)
    }
}
