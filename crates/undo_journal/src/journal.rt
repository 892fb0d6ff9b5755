//! An entry of the journal, and dropping all entries.

ghost use Rattle.std.specs.Prelude.{◌≡◌, [], vec_capacity};

use crate::command::Command;
use crate::inverse::Inverse;
use std::alloc::Allocator;

/// A recorded command with its record.
#[derive(Drop)]
pub(crate) struct JournalEntry<A: Allocator + Clone> {
    pub(crate) command: Command<A>,
    pub(crate) inverse: Inverse<A>,
}

/// Drops all entries, and frees the memory of the journal.
pub(crate) fn drop_entries<A: Allocator + Clone>(journal: &mut Vec<JournalEntry<A>, A>)
    ensures none { journal.new.items ≡ [] }
    ensures freed { vec_capacity journal.new ≡ 0 }
{
    journal.clear();
    journal.shrink_to_fit();
}
