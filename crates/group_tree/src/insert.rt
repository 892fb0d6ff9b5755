//! Inserting a group during the descent. A refusal changes nothing.

ghost use Rattle.std.specs.Prelude.{◌≡◌, ◌≤◌, [], vec_len, insert, IfOk, OnOk, OnErr, IsSome};
ghost use Rattle.std.specs.FinMap as fin;
ghost use Rattle.group_tree.specs.Node.{leaf_of, NodeInserts};

use crate::attr::Attr;
use crate::fault::TreeFault;
use crate::node::{Inner, Node, place};
use crate::number::number_of;
use group_path::Names;
use inline_bytes::InlineBytes;
use std::alloc::{AllocError, Allocator};

impl<A: Allocator + Clone> Node<A> {
    /// A group with no groups below it.
    pub(crate) fn leaf(alloc: A, name: &[u8], attr: Attr) -> Result<Node<A>, AllocError>
        ensures { IfOk result (λ n. n ≡ leaf_of name.now attr) }
    {
        let children = Vec::new(alloc.clone()?);
        let number = number_of(name);
        let name = InlineBytes::copy_of(alloc.clone()?, name)?;
        let inner = Box::new(
            alloc,
            Inner {
                name,
                attr,
                descendants: 0,
                children,
            },
        )?;
        Ok(Node { number, inner })
    }

    /// Inserts a group at these names from here.
    pub(crate) fn insert(&mut self, names: Names<'_>, attr: Attr) -> Result<(), TreeFault>
        ensures root { IsSome (fin.get self.old.groups []) }
        ensures name { self.new.name ≡ self.old.name }
        ensures groups { NodeInserts self.old.groups self.new.groups names.entry attr result }
    {
        let mut names = names;
        match names.next() {
            None => Err(TreeFault::Exists),
            Some(name) => match place(&self.inner.children, name) {
                Ok(at) => {
                    let child = &mut self.inner.children[at];
                    match child.insert(names, attr) {
                        Ok(()) => {
                            let descendants = &mut self.inner.descendants;
                            *descendants = descendants.wrapping_add(1);
                            Ok(())
                        }
                        Err(fault) => Err(fault),
                    }
                }
                Err(at) => match names.next() {
                    Some(_) => Err(TreeFault::NoParent),
                    None => match add_leaf(&mut self.inner.children, at, name, attr) {
                        Ok(()) => {
                            let descendants = &mut self.inner.descendants;
                            *descendants = descendants.wrapping_add(1);
                            Ok(())
                        }
                        Err(_) => Err(TreeFault::OutOfMemory),
                    },
                },
            },
        }
    }
}

/// Makes a group with no groups below it, and inserts it among the children.
fn add_leaf<A: Allocator + Clone>(
    children: &mut Vec<Node<A>, A>,
    at: usize,
    name: &[u8],
    attr: Attr,
) -> Result<(), AllocError>
    requires { at ≤ vec_len children.old }
    ensures ok { OnOk result (children.new.items ≡ insert children.old.items at (leaf_of name.now attr)) }
    ensures err { OnErr result (children.new.items ≡ children.old.items) }
{
    let alloc = children.allocator().clone()?;
    let child = Node::leaf(alloc, name, attr)?;
    children.insert(at, child)?;
    Ok(())
}
