//! Equality and order of paths.

ghost use Rattle.std.specs.Prelude.{Some, refl};
ghost use Rattle.std.specs.Cmp as laws;
ghost use Rattle.std.specs.Cmp.Lexicographic.{lists_total, nat_list_cmp_total};
ghost use Rattle.flat_model.specs.Path.{path_cmp, same_path};

use crate::path::GroupPath;
use std::alloc::Allocator;
use std::cmp::Ordering;

/// Two paths are equal if they have the same names.
impl<A: Allocator + Clone> PartialEq for GroupPath<A> {
    ghost eq = { same_path };

    ghost laws = { laws.partial_equiv_from_equiv (laws.eq_by_cmp_equiv (lists_total nat_list_cmp_total)) };

    fn eq(&self, other: &Self) -> bool {
        self.is_same(other)
    }
}

impl<A: Allocator + Clone> Eq for GroupPath<A> {
    ghost laws = { laws.eq_by_cmp_equiv (lists_total nat_list_cmp_total) };
}

/// Paths are ordered name by name, and names byte by byte: a group comes before the groups below it, and these come before
/// its next sibling. The order of the texts differs, because the bytes `!` to `.` come before the slash.
impl<A: Allocator + Clone> PartialOrd for GroupPath<A> {
    ghost partial_cmp = { λ p q. Some (path_cmp p q) };

    ghost laws = { laws.partial_order_from_total (lists_total nat_list_cmp_total) };

    fn partial_cmp(&self, other: &Self) -> Option<Ordering> {
        Some(self.cmp(other))
    }
}

impl<A: Allocator + Clone> Ord for GroupPath<A> {
    ghost cmp = { path_cmp };

    ghost total = { lists_total nat_list_cmp_total };

    ghost matches_partial_cmp = { λ p q. refl };

    ghost matches_eq = { λ p q. refl };

    fn cmp(&self, other: &Self) -> Ordering {
        self.names().cmp(other.names())
    }
}
