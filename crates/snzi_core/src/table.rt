//! Tables of numbers, one for each word.
ghost use Rattle.std.specs.Prelude.{◌≡◌, ℕ, ◌+◌, ◌-◌, ◌%◌, ◌^◌, ◌<◌, ◌≤◌, length, slice_index};
ghost use Rattle.snzi_core.specs.Holding.{merged, without, wrapped};

// Subtracts each number of `part` from the one at its index.
pub(crate) fn subtract_each(table: &mut [u64], part: &[u64])
    requires len { length part.now ≡ length table.old }
    requires enough { (i : ℕ) → slice_index part.now i ≤ slice_index table.old i }
    ensures { table.new ≡ without table.old part.now }
{
    for i in 0..table.len() {
        table[i] -= part[i];
    }
}

// Adds each number of `part` to the one at its index.
pub(crate) fn add_each(table: &mut [u64], part: &[u64])
    requires len { length part.now ≡ length table.old }
    requires room { (i : ℕ) → slice_index table.old i + slice_index part.now i < 2 ^ 64 }
    ensures { table.new ≡ merged table.old part.now }
{
    for i in 0..table.len() {
        table[i] += part[i];
    }
}

// Adds each number of `part` to the one at its index, modulo 2^64.
pub(crate) fn wrapping_add_each(table: &mut [u64], part: &[u64])
    requires { length part.now ≡ length table.old }
    ensures { table.new ≡ wrapped (merged table.old part.now) }
{
    for i in 0..table.len() {
        table[i] = table[i].wrapping_add(part[i]);
    }
}
