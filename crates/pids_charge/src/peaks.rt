//! The peaks of groups: raised along a path when a process enters, and set again by an undo.

ghost use Rattle.std.specs.Prelude.{◌≡◌, ◌↔◌, ℕ, ◌+◌, ◌^◌, ◌<◌, ◌≤◌, max, length, get_or, take, IfOk, IsOk, IsSome, IsTrue, option_map};
ghost use Rattle.std.specs.List.{All, sum_by};
ghost use Rattle.std.specs.FinMap as fin;
ghost use Rattle.flat_model.specs.Path.{Path};
ghost use Rattle.snzi_tokens.specs.Listed.{one_at, over_leaves};
ghost use Rattle.pids_charge.specs.Peaks.{peak_of, raised_by, AreUpward, IsNoted, SetsPeaks};
ghost use Rattle.pids_charge.specs.GroupRows.{IsOfGroup};
ghost use Rattle.pids_charge.specs.Lists.{row_at};
ghost use Rattle.pids_charge.specs.Recount.{SlotsBelow, SameSlots, with_charges};

use crate::above::set_peaks_up;
use crate::groups::GroupTable;
use crate::meter::{HELD_MAX, Meter};
use crate::notes::{DEPTH_MAX, Notes};
use std::alloc::{AllocError, Allocator, Global};
use std::marker::Model;
use std::mem::size_of;

/// The greatest number of peaks stored inline. With their number they fill the same space as a vector.
pub const INLINE_PEAKS: usize = 7;

// Where the peaks are stored.
#[derive(Drop)]
enum Storage<A: Allocator + Clone> {
    // Inline: the first `len` of these. The length is first, beside the tag.
    Few { len: u8, peaks: [u32; INLINE_PEAKS] },
    // More than `INLINE_PEAKS`, each below 2^32.
    Many(Vec<u32, A>),
    // As `of` was given them, or copies of which one is 2^32 or more, or that are more than a path has names.
    Wide(Vec<u64, A>),
}

/// The peaks of groups along a path, from the path's own group upward, without the root. Contracts see a list of numbers. Up
/// to `INLINE_PEAKS` of them, each below 2^32, are stored in the value itself. More of them take 4 bytes each.
pub struct Peaks<A: Allocator + Clone> {
    storage: Storage<A>,
}

// The space of a vector and a tag.
const _: () = prove!(size_of::<Peaks<Global>>() == 32);

impl<A: Allocator + Clone> Model for Peaks<A> {
    ghost use Rattle.std.specs.Prelude.{ℕ, List};
    ghost use Rattle.std.specs.Coded.{coded_ℕ, coded_list};
    ghost use Rattle.pids_charge.specs.PeakStorage.{peaks_in, FitsInline};

    ghost Value = { List ℕ };

    ghost coded = { coded_list coded_ℕ };

    ghost view = { λ p. peaks_in p.storage };

    ghost invariant = { λ p. FitsInline p.storage };
}

// The explicit drop hides the storage, so the proof of a function that drops such a value has one case instead of three.
impl<A: Allocator + Clone> Drop for Peaks<A> {
    fn drop(self) {
        let Self { storage } = self;
        drop(storage);
    }
}

// Writes the peaks into a table of 32-bit numbers. Returns whether they fit: each is below 2^32.
fn narrow(peaks: &[u64], table: &mut [u32]) -> bool
    requires { length table.old ≡ length peaks.now }
    ensures fit { IsTrue result ↔ All (λ p. p < 2 ^ 32) peaks.now }
    ensures same { IsTrue result → table.new ≡ peaks.now }
{
    for i in 0..peaks.len() {
        let peak = peaks[i];
        if peak > u64::from(u32::MAX) {
            return false;
        }
        table[i] = peak as u32;
    }
    true
}

impl<A: Allocator + Clone> Peaks<A> {
    /// Makes the list of these. Allocates nothing.
    pub fn of(items: Vec<u64, A>) -> Peaks<A>
        ensures { result ≡ items.items }
    {
        let storage = Storage::Wide(items);
        Peaks { storage }
    }

    // Copies the peaks into a new list. Out of memory only if there are more than `INLINE_PEAKS`, or if one of them is 2^32
    // or more.
    pub(crate) fn copy_of(alloc: &A, peaks: &[u64]) -> Result<Peaks<A>, AllocError>
        ensures same { IfOk result (λ p. p ≡ peaks.now) }
        ensures few { length peaks.now ≤ INLINE_PEAKS → All (λ p. p < 2 ^ 32) peaks.now → IsOk result }
    {
        if peaks.len() > DEPTH_MAX {
            return Peaks::wide(alloc, peaks);
        }
        let mut table = [0; DEPTH_MAX];
        let front = &mut table[..peaks.len()];
        if !narrow(peaks, front) {
            return Peaks::wide(alloc, peaks);
        }
        if front.len() > INLINE_PEAKS {
            let many = Vec::from_slice(alloc.clone()?, front)?;
            let storage = Storage::Many(many);
            return Ok(Peaks { storage });
        }
        Ok(Peaks::few(front))
    }

    // Stores a few peaks inline.
    fn few(few: &[u32]) -> Peaks<A>
        requires { length few.now ≤ INLINE_PEAKS }
        ensures { result ≡ few.now }
    {
        let mut peaks = [0; INLINE_PEAKS];
        peaks[..few.len()].copy_from_slice(few);
        let len = few.len() as u8;
        let storage = Storage::Few { len, peaks };
        Peaks { storage }
    }

    // Copies any peaks into an allocation.
    fn wide(alloc: &A, peaks: &[u64]) -> Result<Peaks<A>, AllocError>
        ensures { IfOk result (λ p. p ≡ peaks.now) }
    {
        let wide = Vec::from_slice(alloc.clone()?, peaks)?;
        let storage = Storage::Wide(wide);
        Ok(Peaks { storage })
    }

    /// How many peaks there are.
    pub fn len(&self) -> usize
        ensures { result ≡ length self.now }
    {
        match &self.storage {
            Storage::Few { len, peaks: _ } => usize::from(*len),
            Storage::Many(many) => many.len(),
            Storage::Wide(wide) => wide.len(),
        }
    }

    /// The peak at this index of the list.
    pub fn peak(&self, i: usize) -> u64
        requires { i < length self.now }
        ensures { result ≡ get_or self.now i 0 }
    {
        match &self.storage {
            Storage::Few { len: _, peaks } => u64::from(peaks[i]),
            Storage::Many(many) => u64::from(many[i]),
            Storage::Wide(wide) => wide[i],
        }
    }

    // Writes the peaks into a table.
    fn copy_to(&self, table: &mut [u64])
        requires { length table.old ≡ length self.now }
        ensures { table.new ≡ self.now }
    {
        for i in 0..table.len() {
            table[i] = self.peak(i);
        }
    }

    /// Copies the list into another allocator.
    ///
    /// # Errors
    ///
    /// `AllocError` if there are more than `INLINE_PEAKS`, or one of them is 2^32 or more, and their allocation fails.
    pub fn copy<B: Allocator + Clone>(&self, alloc: B) -> Result<Peaks<B>, AllocError>
        ensures same { IfOk result (λ p. p ≡ self.now) }
        ensures few { length self.now ≤ INLINE_PEAKS → All (λ p. p < 2 ^ 32) self.now → IsOk result }
    {
        match &self.storage {
            Storage::Few { len, peaks } => {
                let storage = Storage::Few {
                    len: *len,
                    peaks: *peaks,
                };
                Ok(Peaks { storage })
            }
            Storage::Many(many) => {
                let many = Vec::from_slice(alloc, many.as_slice())?;
                let storage = Storage::Many(many);
                Ok(Peaks { storage })
            }
            Storage::Wide(wide) => Peaks::copy_of(&alloc, wide.as_slice()),
        }
    }
}

// Adds one charge at each slot.
fn charge_slots<M: Meter>(meter: &mut M, slots: &[u16], leaf: u8)
    requires leaf_below { leaf < M.LEAVES }
    requires slots_below { All (λ s. s < M.SLOTS) slots.now }
    requires room { M.held meter.old + length slots.now ≤ HELD_MAX }
    ensures content { (s j : ℕ) → M.content meter.new s j ≡ M.content meter.old s j + sum_by (λ slot. one_at slot leaf s j) slots.now }
    ensures held { M.held meter.new ≡ M.held meter.old + length slots.now }
{
    for slot in slots {
        meter.charge(*slot, leaf);
    }
}

// The greater of each peak and the count at its slot.
fn reach<M: Meter>(meter: &mut M, slots: &[u16], peaks: &[u64], reached: &mut [u64])
    requires slots_below { All (λ s. s < M.SLOTS) slots.now }
    requires many { (length peaks.now ≡ length slots.now) × (length reached.old ≡ length slots.now) }
    ensures many { length reached.new ≡ length slots.now }
    ensures each { (k : ℕ) → k < length slots.now → get_or reached.new k 0 ≡ max (get_or peaks.now k 0) (over_leaves M.LEAVES (M.content meter.old (get_or slots.now k 0))) }
    ensures content { M.content meter.new ≡ M.content meter.old }
    ensures held { M.held meter.new ≡ M.held meter.old }
{
    for i in 0..slots.len() {
        let count = meter.current(slots[i]);
        reached[i] = peaks[i].max(count);
    }
}

// Sets the peaks of the group in a row and of those above it without the root, unless they are these already. `peaks` has
// those that they are.
fn raise_along<T: Allocator + Clone>(
    tree: &mut GroupTable<T>,
    row: u16,
    peaks: &[u64],
    reached: &[u64],
)
    requires group { IsOfGroup tree.old row }
    requires noted { (p : Path) → IsSome (fin.get tree.old p) → row ≡ row_at tree.old p → AreUpward peak_of tree.old p peaks.now }
    requires many { (p : Path) → IsSome (fin.get tree.old p) → row ≡ row_at tree.old p → length reached.now ≡ length p }
    ensures set { (p : Path) → IsSome (fin.get tree.old p) → row ≡ row_at tree.old p → SetsPeaks tree.old tree.new p reached.now }
    ensures slots { SameSlots tree.old tree.new }
{
    tree.known();
    if *reached == *peaks {
        return;
    }
    set_peaks_up(tree, row, reached);
    tree.known();
}

// Adds one charge at each of the noted groups, which are the one in a row and those above it without the root, and raises
// peaks that are lower than their counts. Does not descend the tree.
pub(crate) fn charge_noted<T: Allocator + Clone, M: Meter>(
    tree: &mut GroupTable<T>,
    meter: &mut M,
    row: u16,
    leaf: u8,
    notes: &Notes,
)
    requires leaf_below { leaf < M.LEAVES }
    requires group { IsOfGroup tree.old row }
    requires noted { (p : Path) → IsSome (fin.get tree.old p) → row ≡ row_at tree.old p → IsNoted tree.old p notes.now }
    requires slots { SlotsBelow M.SLOTS tree.old }
    requires room { M.held meter.old + length notes.now.slots ≤ HELD_MAX }
    ensures content { (p : Path) → IsSome (fin.get tree.old p) → row ≡ row_at tree.old p → (s j : ℕ) → M.content meter.new s j ≡ with_charges tree.old p leaf (M.content meter.old) s j }
    ensures held { M.held meter.new ≡ M.held meter.old + length notes.now.slots }
    ensures raised { (p : Path) → IsSome (fin.get tree.old p) → row ≡ row_at tree.old p → (q : Path) → fin.get tree.new q ≡ option_map (raised_by M.LEAVES (with_charges tree.old p leaf (M.content meter.old)) p q) (fin.get tree.old q) }
    ensures slots { SameSlots tree.old tree.new }
{
    tree.known();
    let slots = notes.slots();
    let peaks = notes.peaks();
    charge_slots(meter, slots, leaf);
    let mut table = [0; DEPTH_MAX];
    let reached = &mut table[..peaks.len()];
    reach(meter, slots, peaks, reached);
    raise_along(tree, row, peaks, reached);
}

// Sets the peaks of the group in a row and of those above it without the root to those of the list, from that group upward.
pub(crate) fn set_list_up<T: Allocator + Clone, A: Allocator + Clone>(
    tree: &mut GroupTable<T>,
    row: u16,
    peaks: &Peaks<A>,
)
    requires group { IsOfGroup tree.old row }
    requires many { (p : Path) → IsSome (fin.get tree.old p) → row ≡ row_at tree.old p → length peaks.now ≡ length p }
    requires few { length peaks.now ≤ 32 }
    ensures { (p : Path) → IsSome (fin.get tree.old p) → row ≡ row_at tree.old p → SetsPeaks tree.old tree.new p peaks.now }
{
    let mut table = [0; DEPTH_MAX];
    let front = &mut table[..peaks.len()];
    peaks.copy_to(front);
    set_peaks_up(tree, row, front);
}
