//! Reading the charges of the groups. Reads go through the engine, because reading a meter borrows it mutably. Nothing
//! is changed or recorded.

ghost use Rattle.std.specs.Prelude.{◌≡◌, ◌&&◌, not, is_some, IfSome};
ghost use Rattle.flat_model.specs.Counts as flat;
ghost use Rattle.flat_model.specs.Counts.{is_group};
ghost use Rattle.flat_model.specs.Path.{is_root};
ghost use Rattle.interface_files.specs.FileMeaning.{file_of};
ghost use Rattle.interface_files.specs.Shown.{Shows};

use crate::engine::Engine;
use group_path::GroupPath;
use interface_files::{File, ShowFault, render};
use pids_charge::Meter;
use std::alloc::Allocator;

impl<A: Allocator + Clone, M: Meter> Engine<A, M> {
    /// How many processes are at or below a group. None for the root, and if the group doesn't exist. Costs at most one descent
    /// of the tree, and allocates nothing.
    pub fn current<B: Allocator + Clone>(&mut self, path: &GroupPath<B>) -> Option<u64>
        ensures some { is_some result ≡ (not (is_root path.now) && is_group self.old.machine.state path.now) }
        ensures count { IfSome result (λ n. n ≡ flat.current self.old.machine.state path.now) }
        ensures kept { self.new ≡ self.old }
    {
        self.charges.current(path)
    }

    /// Whether a process is at or below a group. None for the root, and if the group doesn't exist. Costs at most one descent
    /// of the tree, and allocates nothing.
    pub fn populated<B: Allocator + Clone>(&mut self, path: &GroupPath<B>) -> Option<bool>
        ensures some { is_some result ≡ (not (is_root path.now) && is_group self.old.machine.state path.now) }
        ensures told { IfSome result (λ b. b ≡ flat.populated self.old.machine.state path.now) }
        ensures kept { self.new ≡ self.old }
    {
        self.charges.populated(path)
    }

    /// The text of a file of the group at the path. `cgroup.procs` costs O(n log n) for n processes of the group. Any
    /// other file costs one descent of the tree, and so does a refusal.
    ///
    /// # Errors
    ///
    /// The first of these that applies: `NotReadable` for `cgroup.kill`, `NoGroup`, `NoFile` for a file that the root
    /// doesn't have, `OutOfMemory`.
    pub fn render<B: Allocator + Clone, P: Allocator + Clone>(
        &mut self,
        alloc: B,
        path: &GroupPath<P>,
        file: File,
    ) -> Result<Vec<u8, B>, ShowFault>
        ensures shown { Shows M.SLOTS self.old.machine.state path.now (file_of file) result }
        ensures kept { self.new ≡ self.old }
    {
        render(alloc, &mut self.charges, path, file)
    }
}
