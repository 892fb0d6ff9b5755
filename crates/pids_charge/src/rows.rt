//! The table of processes, by `Pid`s.

ghost use Rattle.std.specs.Prelude.{◌≡◌, None, Some, is_some, IfOk, IsSome, OnOk, OnErr};
ghost use Rattle.std.specs.BTreeMap.{insert_entry, is_at};
ghost use Rattle.std.specs.List.Sorted.{IsStrictlySortedBy};
ghost use Rattle.std.specs.Map.{keys_of, lookup, remove_entry};
ghost use Rattle.std.specs.Option.{option_copied};
ghost use Rattle.std.specs.Ordering.{nat_cmp};
ghost use Rattle.flat_model.specs.CommandText.{IsPid};
ghost use Rattle.process_table.specs.declared.process.Process.{Process};
ghost use Rattle.pids_charge.specs.Lists.{process_in};

use crate::pid::Pid;
use group_path::GroupPath;
use process_table::{Process, ProcessTable};
use std::alloc::{AllocError, Allocator};

// The process with this pid.
pub(crate) fn find_row<A: Allocator + Clone>(
    processes: &ProcessTable<A>,
    pid: Pid,
) -> Option<&Process<A>>
    ensures { option_copied result ≡ lookup (is_at (nat_cmp pid)) processes.now }
{
    processes.get(pid.get())
}

// Whether a process has this pid.
pub(crate) fn has_row<A: Allocator + Clone>(processes: &ProcessTable<A>, pid: Pid) -> bool
    ensures { result ≡ is_some (lookup (is_at (nat_cmp pid)) processes.now) }
{
    processes.has(pid.get())
}

// Inserts a process, and returns the one that had this pid, if any.
pub(crate) fn put_row<A: Allocator + Clone>(
    processes: &mut ProcessTable<A>,
    pid: Pid,
    process: Process<A>,
) -> Result<Option<Process<A>>, AllocError>
    ensures old { IfOk result (λ old. old ≡ lookup (is_at (nat_cmp pid)) processes.old) }
    ensures entries { OnOk result (processes.new ≡ insert_entry nat_cmp processes.old pid process) }
    ensures found { OnOk result (lookup (is_at (nat_cmp pid)) processes.new ≡ Some process) }
    ensures ordered { IsStrictlySortedBy nat_cmp (keys_of processes.new) }
    ensures kept { OnErr result (processes.new ≡ processes.old) }
    ensures pid { IsPid pid }
{
    processes.insert(pid.get(), process)
}

// The group of one of the processes in a row, if there is one.
fn home_of_row<A: Allocator + Clone>(
    processes: &ProcessTable<A>,
    row: u16,
) -> Option<&GroupPath<A>> {
    let pid = processes.unordered(row).first()?;
    let process = processes.get(*pid)?;
    Some(&process.home)
}

// The path for a process that comes into a row. Processes of a row are in one group, so a long text is copied for the
// first of them, and the others share it. It costs a comparison of the two texts, which also proves that they are equal.
pub(crate) fn home_in<A: Allocator + Clone, B: Allocator + Clone>(
    processes: &ProcessTable<A>,
    alloc: &A,
    path: &GroupPath<B>,
    row: u16,
) -> Result<GroupPath<A>, AllocError>
    ensures { IfOk result (λ home. home ≡ path.now) }
{
    if !path.is_short() {
        if let Some(home) = home_of_row(processes, row) {
            if home.is_same(path) {
                return home.share();
            }
        }
    }
    path.copy(alloc.clone()?)
}

// Inserts a process whose path is copied from another allocator; returns the one that had this pid, if any.
pub(crate) fn put_copy<A: Allocator + Clone, B: Allocator + Clone>(
    processes: &mut ProcessTable<A>,
    alloc: &A,
    pid: Pid,
    path: &GroupPath<B>,
    row: u16,
    leaf: u8,
) -> Result<Option<Process<A>>, AllocError>
    ensures old { IfOk result (λ old. old ≡ lookup (is_at (nat_cmp pid)) processes.old) }
    ensures entries { OnOk result (processes.new ≡ insert_entry nat_cmp processes.old pid (process_in path.now row leaf)) }
    ensures ordered { IsStrictlySortedBy nat_cmp (keys_of processes.new) }
    ensures kept { OnErr result (processes.new ≡ processes.old) }
    ensures pid { IsPid pid }
{
    pid.get();
    processes.known();
    let home = home_in(processes, alloc, path, row)?;
    put_row(processes, pid, Process { home, row, leaf })
}

// `put_copy`, which also returns the path that the process gets. They share a long text.
pub(crate) fn put_shared<A: Allocator + Clone, B: Allocator + Clone>(
    processes: &mut ProcessTable<A>,
    alloc: &A,
    pid: Pid,
    path: &GroupPath<B>,
    row: u16,
    leaf: u8,
) -> Result<(GroupPath<A>, Option<Process<A>>), AllocError>
    ensures path { IfOk result (λ put. put.0 ≡ path.now) }
    ensures old { IfOk result (λ put. put.1 ≡ lookup (is_at (nat_cmp pid)) processes.old) }
    ensures entries { OnOk result (processes.new ≡ insert_entry nat_cmp processes.old pid (process_in path.now row leaf)) }
    ensures ordered { IsStrictlySortedBy nat_cmp (keys_of processes.new) }
    ensures kept { OnErr result (processes.new ≡ processes.old) }
    ensures pid { IsPid pid }
{
    pid.get();
    processes.known();
    let home = home_in(processes, alloc, path, row)?;
    let shared = home.share()?;
    let old = put_row(processes, pid, Process { home, row, leaf })?;
    Ok((shared, old))
}

// Removes a process and returns it.
pub(crate) fn take_row<A: Allocator + Clone>(
    processes: &mut ProcessTable<A>,
    pid: Pid,
) -> Option<Process<A>>
    ensures value { result ≡ lookup (is_at (nat_cmp pid)) processes.old }
    ensures entries { processes.new ≡ remove_entry (is_at (nat_cmp pid)) processes.old }
    ensures unchanged { result ≡ None → processes.new ≡ processes.old }
    ensures ordered { IsStrictlySortedBy nat_cmp (keys_of processes.new) }
{
    processes.take(pid.get())
}
