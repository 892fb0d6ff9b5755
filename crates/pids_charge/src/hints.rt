//! Paths of groups by their rows, and hints: in which row a path may be.

ghost use Rattle.std.specs.Prelude.{◌≡◌, ℕ, ◌<◌, Some, None, IsTrue, IfOk, IfSome, OnOk, length, slice_set};
ghost use Rattle.std.specs.List.{slice_index_or};

use group_path::GroupPath;
use std::alloc::{AllocError, Allocator};
use std::marker::Model;

// How many hints there are.
const HINTS: usize = 2048;

// One more word of a text in a hash.
fn mixed(hash: u64, word: u64) -> u64 {
    (hash.rotate_left(5) ^ word).wrapping_mul(0x517c_c1b7_2722_0a95)
}

// Which hint is that of a text. It doesn't matter for the answers.
fn hint_of(text: &[u8]) -> usize
    ensures { result < HINTS }
{
    let mut hash = 0u64;
    let mut rest = text;
    while let [a, b, c, d, e, f, g, h, behind @ ..] = rest {
        hash = mixed(hash, u64::from_le_bytes([*a, *b, *c, *d, *e, *f, *g, *h]));
        rest = behind;
    }
    let mut word = 0u64;
    for byte in rest {
        word = word << 8 | u64::from(*byte);
    }
    (mixed(hash, word) >> 53) as usize
}

// For each row the path of its group, or none. Hints are rows by a hash of the text of their paths. A hint may be wrong: its
// row may have another path by now, or none. So it is tested before it is believed.
#[derive(Drop)]
pub(crate) struct KeptPaths<A: Allocator + Clone> {
    paths: Vec<Option<GroupPath<A>>, A>,
    hints: Vec<u16, A>,
}

impl<A: Allocator + Clone> Model for KeptPaths<A> {
    ghost use Rattle.std.specs.Prelude.{◌≡◌, List, Option, length};
    ghost use Rattle.flat_model.specs.Path.{Path};
    ghost use Rattle.pids_charge.specs.declared.hints.TheConstants.{HINTS};

    ghost Value = { List (Option Path) };

    ghost view = { λ p. p.paths.items };

    ghost invariant = { λ p. length p.hints.items ≡ HINTS };
}

impl<A: Allocator + Clone> KeptPaths<A> {
    // No path, but room for the first ones. All hints are of the root's row.
    pub(crate) fn new(alloc: A) -> Result<KeptPaths<A>, AllocError>
        ensures { IfOk result (λ p. (k : ℕ) → slice_index_or p k None ≡ None) }
    {
        let hints = vec![in alloc.clone()?; 0; HINTS]?;
        let paths = Vec::with_capacity(alloc, 8)?;
        Ok(KeptPaths { paths, hints })
    }

    // Whether the row keeps the path.
    fn keeps<B: Allocator + Clone>(&self, row: u16, path: &GroupPath<B>) -> bool
        ensures { IsTrue result → slice_index_or self.now row None ≡ Some path.now }
    {
        let at = usize::from(row);
        if at < self.paths.len() {
            if let Some(kept) = &self.paths[at] {
                return kept.is_same(path);
            }
        }
        false
    }

    // The row that keeps the path, if its hint is right.
    pub(crate) fn hinted<B: Allocator + Clone>(&self, path: &GroupPath<B>) -> Option<u16>
        ensures { IfSome result (λ row. slice_index_or self.now row None ≡ Some path.now) }
    {
        let row = self.hints[hint_of(path.text())];
        self.keeps(row, path).then_some(row)
    }

    // Makes room for the path of this row.
    fn lengthen(&mut self, row: u16) -> Result<(), AllocError>
        ensures long { OnOk result (row < length self.new) }
        ensures same { (k : ℕ) → slice_index_or self.new k None ≡ slice_index_or self.old k None }
    {
        while self.paths.len() <= usize::from(row) {
            self.paths.push(None)?;
        }
        Ok(())
    }

    // A copy of the path, and room for it in this row: `keep` takes both.
    pub(crate) fn admit<B: Allocator + Clone>(
        &mut self,
        row: u16,
        path: &GroupPath<B>,
    ) -> Result<GroupPath<A>, AllocError>
        ensures long { IfOk result (λ _. row < length self.new) }
        ensures copied { IfOk result (λ p. p ≡ path.now) }
        ensures same { (k : ℕ) → slice_index_or self.new k None ≡ slice_index_or self.old k None }
    {
        self.lengthen(row)?;
        let alloc = self.paths.allocator().clone()?;
        path.copy(alloc)
    }

    // Keeps a path in this row, and sets its hint.
    pub(crate) fn keep(&mut self, row: u16, path: GroupPath<A>)
        requires { row < length self.old }
        ensures { self.new ≡ slice_set self.old row (Some path) }
    {
        let hint = hint_of(path.text());
        self.hints[hint] = row;
        self.paths[usize::from(row)] = Some(path);
    }

    // Drops the path of this row. Its hint stays.
    pub(crate) fn forget(&mut self, row: u16)
        ensures { (k : ℕ) → slice_index_or self.new k None ≡ slice_index_or (slice_set self.old row None) k None }
    {
        let at = usize::from(row);
        if at < self.paths.len() {
            self.paths[at] = None;
        }
    }

    // Copies the paths and the hints into another allocator.
    pub(crate) fn copy<B: Allocator + Clone>(&self, alloc: B) -> Result<KeptPaths<B>, AllocError>
        ensures { IfOk result (λ p. p ≡ self.now) }
    {
        let hints = Vec::from_slice(alloc.clone()?, self.hints.as_slice())?;
        let mut paths = Vec::with_capacity(alloc.clone()?, self.paths.len())?;
        for path in &self.paths {
            let copied = copy_kept(path, alloc.clone()?)?;
            paths.push(copied)?;
        }
        Ok(KeptPaths { paths, hints })
    }
}

// Copies a path, if there is one.
fn copy_kept<A: Allocator + Clone, B: Allocator + Clone>(
    path: &Option<GroupPath<A>>,
    alloc: B,
) -> Result<Option<GroupPath<B>>, AllocError>
    ensures { IfOk result (λ copied. copied ≡ path.now) }
{
    match path {
        Some(kept) => {
            let copied = kept.copy(alloc)?;
            Ok(Some(copied))
        }
        None => Ok(None),
    }
}
