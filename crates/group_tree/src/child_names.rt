//! The names of a group's children, in order.

ghost use Rattle.std.specs.Prelude.{◌≡◌};
ghost use Rattle.std.specs.Iterator.{YieldsFirstBy, item_count};
ghost use Rattle.group_tree.specs.ChildNames.{NamesChildren, names_of_groups};

use crate::node::{Node, place};
use group_path::Names;
use std::alloc::Allocator;
use std::marker::Model;

/// The names of a group's children, ascending by their bytes. Each name costs one step and allocates nothing.
#[derive(Drop)]
pub struct ChildNames<'a, A: Allocator> {
    /// The children whose names are still to be returned.
    rest: &'a [Node<A>],
}

impl<'a, A: Allocator> Model for ChildNames<'a, A> {
    ghost use Rattle.std.specs.Prelude.{List};
    ghost use Rattle.flat_model.specs.Path.{Name};
    ghost use Rattle.group_tree.specs.ChildNames.{names_of_groups};

    ghost Value = { List Name };

    ghost view = { λ s. names_of_groups s.rest.now };
}

impl<'a, A: Allocator> ChildNames<'a, A> {
    fn of(rest: &'a [Node<A>]) -> ChildNames<'a, A>
        ensures { result ≡ names_of_groups rest.now }
    {
        ChildNames { rest }
    }
}

impl<'a, A: Allocator> Iterator for ChildNames<'a, A> {
    type Item = &'a [u8];

    ghost next_gives = { YieldsFirstBy (λ name. name.now) (λ names. names) };

    ghost remaining = { item_count (λ names. names) };

    fn next(&mut self) -> Option<&'a [u8]> {
        let (first, rest) = self.rest.split_first()?;
        let _attr = first.attr();
        self.rest = rest;
        Some(first.name())
    }
}

impl<A: Allocator> Node<A> {
    /// The names of the children of the group at these names from here; None if there is no such group.
    pub(crate) fn child_names(&self, names: Names<'_>) -> Option<ChildNames<'_, A>>
        ensures { NamesChildren self.now.groups names.entry result }
    {
        let mut names = names;
        match names.next() {
            None => Some(ChildNames::of(self.inner.children.as_slice())),
            Some(name) => {
                let children = &self.inner.children;
                match place(children, name) {
                    Ok(at) => children[at].child_names(names),
                    Err(_) => None,
                }
            }
        }
    }
}
