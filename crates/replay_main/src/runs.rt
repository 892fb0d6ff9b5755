//! Work in parts, with a thread for each worker.

ghost use Rattle.std.specs.Prelude.{◌≡◌, ◌+◌, ◌<◌, ◌≤◌, ℕ, take, drop, IfOk};
ghost use Rattle.replay_main.specs.RangeResults.{IsRun};
ghost use denote.Param.Send.{IsSend, IsSync};

use pids_charge::Gate;
use std::alloc::{AllocError, Global};
use std::thread::{Threads, join};

/// The results of `f` for each worker, in order. At its start, worker w passes part `first + w +
/// 1`. Worker 0 is the calling thread, which also does the work of each worker whose thread can't
/// be started.
pub(crate) fn in_runs<
    R: Threads + Sync,
    G: Gate,
    X: Send + Drop,
    F: Fn(usize) -> Result<X, AllocError> + Sync,
>(rt: &R, alloc: Global, gate: &G, first: u8, workers: u8, f: &F) -> Result<Vec<X>, AllocError>
    requires workers { (1 ≤ workers) × (workers ≤ 8) × (first ≤ 16) }
    requires accepts { (i : ℕ) → i < workers → F.pre f.now i }
    ensures { IfOk result (λ v. IsRun (F.post f.now) 0 workers v.items) }
{
    runs_to(rt, alloc, gate, first, workers - 1, f)
}

/// The runs of the workers from 0 to `worker`.
#[cycle(runs)]
fn runs_to<
    R: Threads + Sync,
    G: Gate,
    X: Send + Drop,
    F: Fn(usize) -> Result<X, AllocError> + Sync,
>(rt: &R, alloc: Global, gate: &G, first: u8, worker: u8, f: &F) -> Result<Vec<X>, AllocError>
    requires worker { (worker < 8) × (first ≤ 16) }
    requires accepts { (i : ℕ) → i ≤ worker → F.pre f.now i }
    ensures { IfOk result (λ v. IsRun (F.post f.now) 0 (worker + 1) v.items) }
{
    if worker == 0 {
        let mut all = Vec::new(alloc);
        all.push(one_run(gate, first, 0, f)?)?;
        return Ok(all);
    }
    let theirs = move || -> Result<X, AllocError>
        requires { IsSync F.row × IsSend X.row × IsSync G.row × (worker < 8) × (first ≤ 16)
            × F.pre f.now worker }
        ensures { F.post f.entry.now worker result }
    { one_run(gate, first, worker, f) };
    let mine = move || -> Result<Vec<X>, AllocError>
        requires { IsSync R.row × IsSync F.row × IsSend X.row × IsSync G.row × (0 < worker)
            × (worker < 8) × (first ≤ 16) × ((i : ℕ) → i ≤ worker → F.pre f.now i) }
        ensures { IfOk result (λ v. IsRun (F.post f.entry.now) 0 worker v.items) }
    { runs_to(rt, alloc, gate, first, worker - 1, f) };
    let (last, before) = join(rt, theirs, mine);
    let mut all = before?;
    all.push(last?)?;
    Ok(all)
}

/// One worker's run.
fn one_run<G: Gate, X, F: Fn(usize) -> Result<X, AllocError>>(
    gate: &G,
    first: u8,
    worker: u8,
    f: &F,
) -> Result<X, AllocError>
    requires worker { (worker < 8) × (first ≤ 16) }
    requires accepts { F.pre f.now worker }
    ensures { F.post f.now worker result }
{
    gate.pass(first + worker + 1);
    f(usize::from(worker))
}

/// The first `n` items, or all if there are fewer.
pub(crate) fn first<T>(items: &[T], n: usize) -> &[T]
    ensures { result.now ≡ take n items.now }
{
    &items[..n.min(items.len())]
}

/// The items after the first `n`.
pub(crate) fn behind<T>(items: &[T], n: usize) -> &[T]
    ensures { result.now ≡ drop n items.now }
{
    &items[n.min(items.len())..]
}
