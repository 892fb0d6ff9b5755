//! A page: the cells of 64 consecutive pids.

ghost use Rattle.std.specs.Prelude.{◌≡◌, ℕ, ◌<◌, ◌≤◌, [], None, Some, IsTrue, OnOk, length, option_map, slice_set};
ghost use Rattle.std.specs.List.{slice_index_or};
ghost use Rattle.std.specs.Option.{option_copied};
ghost use Rattle.process_table.specs.Cells.{at_place};

use crate::process::Cell;
use std::alloc::{AllocError, Allocator, Global};
use std::marker::Model;
use std::mem::{self, size_of};

// How many pids a page covers.
pub(crate) const CELLS: usize = 64;

// So a page takes 3,072 bytes.
const _: () = prove!(size_of::<Option<Cell<Global>>>() == 48);

fn are_all_empty<A: Allocator + Clone>(cells: &[Option<Cell<A>>]) -> bool
    ensures { IsTrue result → (k : ℕ) → k < length cells.now → slice_index_or cells.now k None ≡ None }
{
    for cell in cells {
        if cell.is_some() {
            return false;
        }
    }
    true
}

// The cells of a page, or none if the page is not allocated.
#[derive(Drop)]
pub(crate) struct Page<A: Allocator + Clone> {
    cells: Vec<Option<Cell<A>>, A>,
    // How many cells are in use. It only says when to check whether all are empty.
    used: u32,
}

impl<A: Allocator + Clone> Model for Page<A> {
    ghost use Rattle.std.specs.Prelude.{List, Option};
    ghost use Rattle.process_table.specs.declared.process.Cell.{Cell};

    ghost Value = { List (Option (Cell A)) };

    ghost view = { λ p. p.cells.items };
}

impl<A: Allocator + Clone> Page<A> {
    // A page that is not allocated. Allocates nothing.
    pub(crate) fn unmade(alloc: A) -> Page<A>
        ensures { result ≡ [] }
    {
        Page {
            cells: Vec::new(alloc),
            used: 0,
        }
    }

    // Allocates the whole page, in one block. Cells that it already has stay.
    pub(crate) fn fill(&mut self) -> Result<(), AllocError>
        ensures whole { OnOk result (CELLS ≤ length self.new) }
        ensures same { (k : ℕ) → slice_index_or self.new k None ≡ slice_index_or self.old k None }
    {
        let len = self.cells.len();
        if len < CELLS {
            self.cells.reserve(CELLS - len)?;
        }
        for _at in len..CELLS {
            self.cells.push(None)?;
        }
        Ok(())
    }

    pub(crate) fn get(&self, at: usize) -> Option<&Cell<A>>
        ensures { option_copied result ≡ slice_index_or self.now at None }
    {
        self.cells.get(at)?.as_ref()
    }

    // Stores a cell, and returns the old one, if any.
    pub(crate) fn put(&mut self, at: usize, cell: Cell<A>) -> Option<Cell<A>>
        requires { at < length self.old }
        ensures before { result ≡ slice_index_or self.old at None }
        ensures after { self.new ≡ slice_set self.old at (Some cell) }
    {
        let before = mem::replace(&mut self.cells[at], Some(cell));
        if before.is_none() {
            self.used = self.used.wrapping_add(1);
        }
        before
    }

    // Whether no cell is in use.
    pub(crate) fn is_unused(&self) -> bool {
        self.used == 0
    }

    // Frees the memory of an empty page.
    pub(crate) fn free(&mut self)
        ensures { (k : ℕ) → slice_index_or self.new k None ≡ slice_index_or self.old k None }
    {
        if are_all_empty(self.cells.as_slice()) {
            self.cells.clear();
            self.cells.shrink_to_fit();
        }
    }

    // Removes a cell.
    pub(crate) fn take(&mut self, at: usize) -> Option<Cell<A>>
        ensures before { result ≡ slice_index_or self.old at None }
        ensures after { (k : ℕ) → slice_index_or self.new k None ≡ slice_index_or (slice_set self.old at None) k None }
    {
        if at >= self.cells.len() {
            return None;
        }
        let taken = self.cells[at].take();
        if taken.is_some() {
            self.used = self.used.wrapping_sub(1);
        }
        taken
    }

    // Stores another index in the cell, if there is one.
    pub(crate) fn set_place(&mut self, at: usize, place: usize)
        ensures { self.new ≡ slice_set self.old at (option_map (at_place place) (slice_index_or self.old at None)) }
    {
        if at < self.cells.len() {
            if let Some(cell) = &mut self.cells[at] {
                cell.place = place;
            }
        }
    }
}
