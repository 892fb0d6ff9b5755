//! All cells, in pages that are allocated when they are needed.

ghost use Rattle.std.specs.Prelude.{◌≡◌, ℕ, ◌<◌, [], None, Some, OnOk, eqb, if◌then◌else◌, length, option_map};
ghost use Rattle.std.specs.List.{slice_index_or};
ghost use Rattle.std.specs.Option.{option_copied};
ghost use Rattle.process_table.specs.Cells.{at_place, cell_at, HasPage};

use crate::page::{CELLS, Page};
use crate::process::Cell;
use std::alloc::{AllocError, Allocator};
use std::marker::Model;
use std::mem;

// The cell of a pid is in the page `pid / CELLS`.
#[derive(Drop)]
pub(crate) struct Pages<A: Allocator + Clone> {
    pages: Vec<Page<A>, A>,
    // A pid of the page that was emptied last, which keeps its memory.
    spare: u32,
}

impl<A: Allocator + Clone> Model for Pages<A> {
    ghost use Rattle.std.specs.Prelude.{List, Option};
    ghost use Rattle.process_table.specs.declared.process.Cell.{Cell};

    ghost Value = { List (List (Option (Cell A))) };

    ghost view = { λ p. p.pages.items };
}

impl<A: Allocator + Clone> Pages<A> {
    // No pages. Allocates nothing.
    pub(crate) fn new(alloc: A) -> Pages<A>
        ensures { result ≡ [] }
    {
        Pages {
            pages: Vec::new(alloc),
            spare: 0,
        }
    }

    pub(crate) fn get(&self, pid: u32) -> Option<&Cell<A>>
        ensures { option_copied result ≡ cell_at self.now pid }
    {
        let page = pid as usize / CELLS;
        if page < self.pages.len() {
            self.pages[page].get(pid as usize % CELLS)
        } else {
            None
        }
    }

    // Extends the list of pages by pages that are not allocated.
    fn lengthen(&mut self, alloc: &A, page: usize) -> Result<(), AllocError>
        ensures listed { OnOk result (page < length self.new) }
        ensures same { (p : ℕ) → slice_index_or self.new p [] ≡ slice_index_or self.old p [] }
    {
        while self.pages.len() <= page {
            self.pages.push(Page::unmade(alloc.clone()?))?;
        }
        Ok(())
    }

    // Allocates the page of a pid.
    pub(crate) fn grow(&mut self, alloc: &A, pid: u32) -> Result<(), AllocError>
        ensures made { OnOk result (HasPage self.new pid) }
        ensures same { (q : ℕ) → cell_at self.new q ≡ cell_at self.old q }
    {
        let page = pid as usize / CELLS;
        self.lengthen(alloc, page)?;
        self.pages[page].fill()
    }

    // Stores a cell, and returns the old one, if any.
    pub(crate) fn put(&mut self, pid: u32, cell: Cell<A>) -> Option<Cell<A>>
        requires { HasPage self.old pid }
        ensures before { result ≡ cell_at self.old pid }
        ensures after { (q : ℕ) → cell_at self.new q ≡ (if eqb pid q then Some cell else cell_at self.old q) }
    {
        self.pages[pid as usize / CELLS].put(pid as usize % CELLS, cell)
    }

    // Removes a cell.
    fn take_cell(&mut self, pid: u32) -> Option<Cell<A>>
        ensures before { result ≡ cell_at self.old pid }
        ensures after { (q : ℕ) → cell_at self.new q ≡ (if eqb pid q then None else cell_at self.old q) }
    {
        let page = pid as usize / CELLS;
        if page < self.pages.len() {
            self.pages[page].take(pid as usize % CELLS)
        } else {
            None
        }
    }

    // Whether the page of a pid has no cell in use.
    fn is_unused(&self, pid: u32) -> bool {
        let page = pid as usize / CELLS;
        page < self.pages.len() && self.pages[page].is_unused()
    }

    // Frees the page of a pid, if it is empty.
    fn free_page(&mut self, pid: u32)
        ensures { (q : ℕ) → cell_at self.new q ≡ cell_at self.old q }
    {
        let page = pid as usize / CELLS;
        if page < self.pages.len() {
            self.pages[page].free();
        }
    }

    // Frees the page that was emptied before, and keeps the memory of this pid's page.
    fn spare_page(&mut self, pid: u32)
        ensures { (q : ℕ) → cell_at self.new q ≡ cell_at self.old q }
    {
        let before = mem::replace(&mut self.spare, pid);
        if before as usize / CELLS != pid as usize / CELLS {
            self.free_page(before);
        }
    }

    // Removes a cell. One page at most keeps its memory without cells in use.
    pub(crate) fn take(&mut self, pid: u32) -> Option<Cell<A>>
        ensures before { result ≡ cell_at self.old pid }
        ensures after { (q : ℕ) → cell_at self.new q ≡ (if eqb pid q then None else cell_at self.old q) }
    {
        let taken = self.take_cell(pid);
        if self.is_unused(pid) {
            self.spare_page(pid);
        }
        taken
    }

    // Stores another index in the cell of a pid, if there is one.
    pub(crate) fn set_place(&mut self, pid: u32, place: usize)
        ensures { (q : ℕ) → cell_at self.new q ≡ (if eqb pid q then option_map (at_place place) (cell_at self.old pid) else cell_at self.old q) }
    {
        let page = pid as usize / CELLS;
        if page < self.pages.len() {
            self.pages[page].set_place(pid as usize % CELLS, place);
        }
    }
}
