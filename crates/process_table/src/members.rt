//! The pids of the processes of each row.

ghost use Rattle.std.specs.Prelude.{◌≡◌, ◌≢◌, ℕ, ◌<◌, [], ◌∷◌, ◌++◌, IfOk, OnOk, OnErr, eqb, if◌then◌else◌, length};
ghost use Rattle.process_table.specs.Members.{list_at, IsRead, HasLeft};

use std::alloc::{AllocError, Allocator};
use std::marker::Model;

// The pid at an index, if there is one.
fn read(pids: &[u32], place: usize) -> Option<u32>
    ensures { IsRead pids.now place result }
{
    if place < pids.len() {
        Some(pids[place])
    } else {
        None
    }
}

// The pids of the processes of one row, in no order.
#[derive(Drop)]
struct Members<A: Allocator + Clone> {
    pids: Vec<u32, A>,
}

impl<A: Allocator + Clone> Model for Members<A> {
    ghost use Rattle.std.specs.Prelude.{ℕ, List};

    ghost Value = { List ℕ };

    ghost view = { λ m. m.pids.items };
}

impl<A: Allocator + Clone> Members<A> {
    fn new(alloc: A) -> Members<A>
        ensures { result ≡ [] }
    {
        Members {
            pids: Vec::new(alloc),
        }
    }

    // Adds a pid, and returns its index.
    fn push(&mut self, pid: u32) -> Result<usize, AllocError>
        ensures place { IfOk result (λ n. n ≡ length self.old) }
        ensures pushed { OnOk result (self.new ≡ self.old ++ pid ∷ []) }
        ensures kept { OnErr result (self.new ≡ self.old) }
    {
        let place = self.pids.len();
        self.pids.push(pid)?;
        Ok(place)
    }

    // Removes the pid at an index. The last pid moves to that index, and is returned if it is another one.
    fn leave(&mut self, place: usize) -> Option<u32>
        requires { place < length self.old }
        ensures { HasLeft self.old place result self.new }
    {
        let _ = self.pids.swap_remove(place);
        read(self.pids.as_slice(), place)
    }

    fn first(&self) -> Option<u32>
        ensures { IsRead self.now 0 result }
    {
        read(self.pids.as_slice(), 0)
    }

    fn as_slice(&self) -> &[u32]
        ensures { result.now ≡ self.now }
    {
        self.pids.as_slice()
    }
}

// The lists of pids for the rows up to the greatest one that has been used.
#[derive(Drop)]
pub(crate) struct RowMembers<A: Allocator + Clone> {
    lists: Vec<Members<A>, A>,
}

impl<A: Allocator + Clone> Model for RowMembers<A> {
    ghost use Rattle.std.specs.Prelude.{ℕ, List};

    ghost Value = { List (List ℕ) };

    ghost view = { λ s. s.lists.items };
}

impl<A: Allocator + Clone> RowMembers<A> {
    // No lists. Allocates nothing.
    pub(crate) fn new(alloc: A) -> RowMembers<A>
        ensures { result ≡ [] }
    {
        RowMembers {
            lists: Vec::new(alloc),
        }
    }

    pub(crate) fn len(&self) -> usize
        ensures { result ≡ length self.now }
    {
        self.lists.len()
    }

    // Makes the list of a row.
    pub(crate) fn grow(&mut self, alloc: &A, row: u16) -> Result<(), AllocError>
        ensures listed { OnOk result (row < length self.new) }
        ensures same { (s : ℕ) → list_at self.new s ≡ list_at self.old s }
    {
        while self.lists.len() <= usize::from(row) {
            self.lists.push(Members::new(alloc.clone()?))?;
        }
        Ok(())
    }

    // Adds a pid to a row, and returns its index.
    pub(crate) fn push(&mut self, row: u16, pid: u32) -> Result<usize, AllocError>
        requires { row < length self.old }
        ensures place { IfOk result (λ n. n ≡ length (list_at self.old row)) }
        ensures pushed { OnOk result ((s : ℕ) → list_at self.new s ≡ (if eqb row s then list_at self.old s ++ pid ∷ [] else list_at self.old s)) }
        ensures kept { OnErr result ((s : ℕ) → list_at self.new s ≡ list_at self.old s) }
    {
        self.lists[usize::from(row)].push(pid)
    }

    // Removes the pid at an index of a row. Returns the pid that moves to that index, if one does.
    pub(crate) fn leave(&mut self, row: u16, place: usize) -> Option<u32>
        requires { place < length (list_at self.old row) }
        ensures left { HasLeft (list_at self.old row) place result (list_at self.new row) }
        ensures others { (s : ℕ) → s ≢ row → list_at self.new s ≡ list_at self.old s }
    {
        self.lists[usize::from(row)].leave(place)
    }

    // A pid of the row, if there is one.
    pub(crate) fn first(&self, row: usize) -> Option<u32>
        ensures { IsRead (list_at self.now row) 0 result }
    {
        if row < self.lists.len() {
            self.lists[row].first()
        } else {
            None
        }
    }

    // The pids of a row, in no order.
    pub(crate) fn pids(&self, row: usize) -> &[u32]
        ensures { result.now ≡ list_at self.now row }
    {
        if row < self.lists.len() {
            self.lists[row].as_slice()
        } else {
            &[]
        }
    }
}
