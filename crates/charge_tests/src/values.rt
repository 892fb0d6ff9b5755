//! Stripes, pids, and what is made in a heap of its own.

ghost use Rattle.std.specs.Prelude.{◌<◌, IfOk};

use crate::homed::Homed;
use linked_list_allocator::LocalHeap;
use pids_charge::{Charges, PID_MAX, Pid, PlainMeter};
use std::alloc::{AllocError, Global};
use std::sync::Wait;
use std::thread::Threads;
use striped_adder::Stripes;
use test_support::{Case, CaseFault, Outcome, Subject};

/// Four stripes, and one.
#[derive(Drop)]
pub(crate) struct Values {
    four: Stripes<4>,
    one: Stripes<1>,
}

impl Values {
    pub(crate) fn new() -> Values {
        Values {
            four: Stripes::new(),
            one: Stripes::new(),
        }
    }

    /// The stripe with this number.
    fn stripe(case: &Case) -> Result<usize, CaseFault>
        ensures { IfOk result (λ stripe. stripe < 4) }
    {
        Ok((case.number(1)? % 4) as usize)
    }
}

/// Whether new charges fit in a heap of this size. They leave nothing in it.
fn charges_fit(alloc: Global, size: usize) -> Result<(bool, usize), AllocError> {
    let heap = LocalHeap::new(alloc, size)?;
    let fit = Charges::new(&heap, PlainMeter::new(alloc)?).is_ok();
    Ok((fit, heap.used()))
}

/// Whether a meter fits in a heap of this size. It leaves nothing in it.
fn meter_fits(alloc: Global, size: usize) -> Result<(bool, usize), AllocError> {
    let heap = LocalHeap::new(alloc, size)?;
    let fits = PlainMeter::new(&heap).is_ok();
    Ok((fits, heap.used()))
}

/// Whether the page of a single process takes more than 2,048 bytes, and the page that is emptied last alone keeps them. The
/// lists of pages and of slots keep what they have.
fn is_one_page_kept(alloc: Global) -> Result<bool, AllocError> {
    let heap = LocalHeap::new(alloc, 65_536)?;
    let mut table = Homed::new(alloc, &heap)?;
    let _first = table.put(640, 1, 0)?;
    let _taken = table.take(640);
    let kept = heap.used();
    for pid in [1u32, 700, 64] {
        let is_put = table.put(pid, 1, 0)?.is_none() && table.put(pid, 1, 1)?.is_some();
        let is_held = kept.saturating_add(2048) < heap.used();
        if !is_put || !is_held {
            return Ok(false);
        }
        if table.take(pid).is_none() || heap.used() != kept {
            return Ok(false);
        }
        let is_put_again = table.put(pid, 1, 0)?.is_none() && heap.used() == kept;
        if !is_put_again || table.take(pid).is_none() || heap.used() != kept {
            return Ok(false);
        }
    }
    Ok(true)
}

/// Appends whether something fits, and what it left in the heap.
fn say_fit(said: &mut String, (fits, left): (bool, usize)) -> Result<(), AllocError> {
    let fits = if fits { "fit" } else { "out of memory" };
    write!(said, "{fits}, {left} bytes left")
}

impl Subject for Values {
    fn call<R: Threads + Wait + Sync>(
        &mut self,
        _rt: &R,
        alloc: Global,
        case: &Case,
        said: &mut String,
    ) -> Result<Outcome, CaseFault> {
        match case.word(0) {
            b"add" => self.four.add(Values::stripe(case)?, case.number(2)?),
            b"take" => self.four.take(Values::stripe(case)?, case.number(2)?),
            b"sum" => {
                let sum = self.four.sum();
                write!(said, "{sum}")?;
            }
            b"one_add" => self.one.add(0, case.number(1)?),
            b"one_take" => self.one.take(0, case.number(1)?),
            b"one_sum" => {
                let sum = self.one.sum();
                write!(said, "{sum}")?;
            }
            b"pid" => {
                let number = (case.number(1)? % 4_294_967_296) as u32;
                if let Some(pid) = Pid::new(number) {
                    let number = pid.get();
                    write!(said, "{number}")?;
                }
            }
            b"pid_max" => write!(said, "{PID_MAX}")?,
            b"charges_in" => {
                let size = (case.number(1)? % 1_048_576) as usize;
                say_fit(said, charges_fit(alloc, size)?)?;
            }
            b"meter_in" => {
                let size = (case.number(1)? % 1_048_576) as usize;
                say_fit(said, meter_fits(alloc, size)?)?;
            }
            b"one_page_kept" => {
                let kept = is_one_page_kept(alloc)?;
                write!(said, "{kept}")?;
            }
            _ => return Err(CaseFault::Malformed),
        }
        Ok(Outcome::Answered)
    }

    fn show(&mut self, _alloc: Global, _text: &mut String) -> Result<(), AllocError> {
        Ok(())
    }
}
