//! The calls of a case on paths. The head of `paths.cases` says what they do.

use crate::words::{Words, push_runs};
use group_path::{DEPTH_MAX, GroupPath, NAME_MAX, Names, PathFault, TEXT_MAX};
use std::alloc::{AllocError, Allocator, Global};
use std::sync::Wait;
use std::thread::Threads;
use test_support::{Case, CaseFault, Outcome, Subject};

/// How many paths a subject has.
const PATHS: usize = 8;

/// Paths in one allocator, the root at first.
#[derive(Drop)]
pub(crate) struct Paths<A: Allocator + Clone> {
    home: A,
    all: Vec<GroupPath<A>>,
    /// The index of the path that calls are on.
    at: usize,
}

impl<A: Allocator + Copy + Drop> Subject for Paths<A> {
    fn call<R: Threads + Wait + Sync>(
        &mut self,
        _rt: &R,
        alloc: Global,
        case: &Case,
        said: &mut String,
    ) -> Result<Outcome, CaseFault> {
        let words = Words::of(alloc, case)?;
        match words.text(0) {
            "let" => {
                let to = words.number(1)? as usize;
                return self.make(&words, 2, Some(to), said);
            }
            "path" => self.at = words.number(1)? as usize,
            "drop" => self.drop_current()?,
            "cut" => self.cut(words.number(1)? as usize)?,
            _ => {}
        }
        let Some(path) = self.all.get(self.at) else {
            return Err(CaseFault::Malformed);
        };
        match words.text(0) {
            "text" | "path" | "drop" | "cut" => push_runs(said, path.text())?,
            "depth" => write!(said, "{}", path.depth())?,
            "names" => push_names(said, path.names())?,
            "first" => push_names(said, path.first_names(words.number(1)? as usize))?,
            "short" => write!(said, "{}", path.is_short())?,
            "compare" => compare(alloc, path, words.get(1), said)?,
            "bounds" => write!(said, "{DEPTH_MAX} {NAME_MAX} {TEXT_MAX}")?,
            "out_of_memory" => write!(said, "{}", PathFault::OutOfMemory)?,
            _ => return self.make(&words, 0, None, said),
        }
        Ok(Outcome::Answered)
    }

    fn show(&mut self, _alloc: Global, text: &mut String) -> Result<(), AllocError> {
        for path in &self.all {
            push_runs(text, path.text())?;
            text.push(' ')?;
        }
        Ok(())
    }
}

impl<A: Allocator + Copy + Drop> Paths<A> {
    /// Paths in the allocator `home`.
    pub(crate) fn new(alloc: Global, home: A) -> Result<Paths<A>, AllocError> {
        let mut all = Vec::new(alloc);
        for _ in 0..PATHS {
            all.push(GroupPath::root(home)?)?;
        }
        Ok(Paths { home, all, at: 0 })
    }

    fn drop_current(&mut self) -> Result<(), CaseFault> {
        let root = GroupPath::root(self.home)?;
        self.put(self.at, root)
    }

    fn put(&mut self, at: usize, path: GroupPath<A>) -> Result<(), CaseFault> {
        let Some(place) = self.all.get_mut(at) else {
            return Err(CaseFault::Malformed);
        };
        *place = path;
        Ok(())
    }

    fn cut(&mut self, n: usize) -> Result<(), CaseFault> {
        let Some(path) = self.all.get_mut(self.at) else {
            return Err(CaseFault::Malformed);
        };
        if n > path.depth() {
            return Err(CaseFault::Malformed);
        }
        path.cut(n);
        Ok(())
    }

    /// The path of a call whose name is the word with this index.
    fn made(
        &self,
        words: &Words,
        at: usize,
    ) -> Result<Result<Option<GroupPath<A>>, PathFault>, CaseFault> {
        let home = self.home;
        let Some(path) = self.all.get(self.at) else {
            return Err(CaseFault::Malformed);
        };
        let next = at.saturating_add(1);
        let made = match words.text(at) {
            "root" => GroupPath::root(home).map_err(PathFault::from),
            "read" => GroupPath::read(home, words.get(next)),
            "child" => path.child(home, words.get(next)),
            "copy" => path.copy(home).map_err(PathFault::from),
            "share" => path.share().map_err(PathFault::from),
            "front" => {
                let n = words.number(next)? as usize;
                path.front(home, n).map_err(PathFault::from)
            }
            "parent" => return Ok(path.parent(home).map_err(PathFault::from)),
            _ => return Err(CaseFault::Malformed),
        };
        Ok(made.map(Some))
    }

    /// Makes a path and answers its text. Puts it at `to`, if this is an index.
    fn make(
        &mut self,
        words: &Words,
        at: usize,
        to: Option<usize>,
        said: &mut String,
    ) -> Result<Outcome, CaseFault> {
        match self.made(words, at)? {
            Ok(Some(path)) => {
                push_runs(said, path.text())?;
                if let Some(to) = to {
                    self.put(to, path)?;
                }
            }
            Ok(None) => said.push_str("none")?,
            Err(PathFault::OutOfMemory) => return Ok(Outcome::Refused),
            Err(fault) => write!(said, "{fault}")?,
        }
        Ok(Outcome::Answered)
    }
}

/// The names, separated by blanks.
fn push_names(said: &mut String, names: Names<'_>) -> Result<(), AllocError> {
    let mut is_first = true;
    for name in names {
        if !is_first {
            said.push(' ')?;
        }
        is_first = false;
        push_runs(said, name)?;
    }
    Ok(())
}

/// Whether the path is at or below the other, `cmp`, `partial_cmp`, `==` and `is_same`. The other path is in another allocator
/// than the first, and for the orders and `==` in the same one as a copy of the first.
fn compare<A: Allocator + Clone>(
    alloc: Global,
    path: &GroupPath<A>,
    other: &[u8],
    said: &mut String,
) -> Result<(), CaseFault> {
    let Ok(other) = GroupPath::read(alloc, other) else {
        return Err(CaseFault::Malformed);
    };
    let copy = path.copy(alloc)?;
    let is_below = path.is_at_or_below(&other);
    let order = copy.cmp(&other);
    let partial = copy.partial_cmp(&other);
    let is_equal = copy == other;
    let is_same = path.is_same(&other);
    Ok(write!(
        said,
        "{is_below} {order:?} {partial:?} {is_equal} {is_same}"
    )?)
}
