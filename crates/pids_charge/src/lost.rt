//! The processes that a kill removed.

ghost use Rattle.std.specs.Prelude.{◌≡◌, IfOk};
ghost use Rattle.pids_charge.specs.Lists.{row_of, rows_of};

use crate::pid::Pid;
use group_path::GroupPath;
use std::alloc::{AllocError, Allocator};
use std::marker::Model;

/// A process that a kill removed, and its group.
#[derive(Drop)]
pub struct Lost<A: Allocator + Clone> {
    pub pid: Pid,
    pub path: GroupPath<A>,
}

/// The processes that a kill removed, pids ascending. Contracts see pairs of a pid and a path.
#[derive(Drop)]
pub struct LostList<A: Allocator + Clone> {
    items: Vec<Lost<A>, A>,
}

impl<A: Allocator + Clone> Model for LostList<A> {
    ghost use Rattle.std.specs.Prelude.{ℕ, List};
    ghost use Rattle.std.specs.Coded.{coded×, coded_ℕ, coded_list};
    ghost use Rattle.flat_model.specs.Path.{Path};
    ghost use Rattle.flat_model.specs.StateCodes.{path_code};
    ghost use Rattle.pids_charge.specs.Lists.{rows_of};

    ghost Value = { List (ℕ × Path) };

    ghost coded = { coded_list (coded× coded_ℕ path_code) };

    ghost view = { λ l. rows_of l.items.items };
}

impl<A: Allocator + Clone> Lost<A> {
    fn copy<B: Allocator + Clone>(&self, alloc: B) -> Result<Lost<B>, AllocError>
        ensures { IfOk result (λ l. row_of l ≡ row_of self.now) }
    {
        Ok(Lost {
            pid: self.pid,
            path: self.path.copy(alloc)?,
        })
    }
}

// A copy of the list in another allocator, in the same order.
fn copy_all<A: Allocator + Clone, B: Allocator + Clone>(
    list: &[Lost<A>],
    alloc: B,
) -> Result<Vec<Lost<B>, B>, AllocError>
    ensures { IfOk result (λ items. rows_of items.items ≡ rows_of list.now) }
{
    let mut items = Vec::with_capacity(alloc.clone()?, list.len())?;
    for lost in list {
        items.push(lost.copy(alloc.clone()?)?)?;
    }
    Ok(items)
}

impl<A: Allocator + Clone> LostList<A> {
    /// Makes the list of these. Allocates nothing.
    pub fn of(items: Vec<Lost<A>, A>) -> LostList<A>
        ensures { result ≡ rows_of items.items }
    {
        LostList { items }
    }

    /// The processes, in the order of the list.
    pub fn as_slice(&self) -> &[Lost<A>]
        ensures { rows_of result.now ≡ self.now }
    {
        self.items.as_slice()
    }

    /// Copies the list into another allocator. Linear in its paths.
    ///
    /// # Errors
    ///
    /// `AllocError` when out of memory.
    pub fn copy<B: Allocator + Clone>(&self, alloc: B) -> Result<LostList<B>, AllocError>
        ensures { IfOk result (λ l. l ≡ self.now) }
    {
        let items = copy_all(self.items.as_slice(), alloc)?;
        Ok(LostList { items })
    }
}
