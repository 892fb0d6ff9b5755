//! Charges, and the calls on them. The number of calls bounds their event totals, so that there is room for those of a fork.

ghost use Rattle.std.specs.Prelude.{ℕ, ◌+◌, ◌≡◌};
ghost use Rattle.flat_model.specs.EventTotals.{HasEventsUpTo};
ghost use Rattle.pids_charge.specs.Events.{HasRoomForEvents};

use crate::asked::{Asked, Call, ask};
use crate::changes::{
    Apart, exit, fork, fork_or_count, kill, make_group, migrate, mkdir, place, place_one,
    place_two, restore, rmdir, set_limit, set_peaks, take_group, uncount, unfork, unmove,
};
use crate::said::{
    kept, say_attr, say_done, say_flag, say_forked, say_home, say_limit, say_lost, say_members,
    say_moved, say_number, say_path, say_peaks, say_totals, say_uncounted,
};
use crate::shown::{is_copied, show};
use group_tree::Attr;
use pids_charge::{Alone, Charges, OpenGate, PlainMeter, with_threads};
use std::alloc::{AllocError, Allocator, Global};
use std::sync::Wait;
use std::thread::Threads;
use test_support::{Case, CaseFault, Outcome, Subject};

/// Charges, the allocator of their groups and processes, and the attributes of the group that was removed last.
#[derive(Drop)]
struct Tested<A: Allocator + Clone> {
    charges: Apart<A>,
    alloc: A,
    removed: Option<Attr>,
}

/// What is tested, and how many calls were made on it.
#[derive(Drop)]
pub(crate) struct Charged<A: Allocator + Clone> {
    tested: Tested<A>,
    calls: u32,
    ghost up: { HasEventsUpTo calls tested.charges },
}

impl<A: Allocator + Clone> Charged<A> {
    /// The root with process 1, in the second allocator.
    pub(crate) fn new(alloc: Global, over: A) -> Result<Charged<A>, AllocError> {
        let charges = Charges::new(over.clone()?, PlainMeter::new(alloc)?)?;
        let tested = Tested {
            charges,
            alloc: over,
            removed: None,
        };
        Ok(Charged { tested, calls: 0 })
    }
}

/// Makes new charges, and drops them.
fn make_new<A: Allocator + Clone>(
    alloc: Global,
    over: &A,
    said: &mut String,
) -> Result<Outcome, AllocError> {
    match Charges::new(over, PlainMeter::new(alloc)?) {
        Ok(_charges) => {
            said.push_str("ok")?;
            Ok(Outcome::Answered)
        }
        Err(AllocError) => Ok(Outcome::Refused),
    }
}

/// Makes the call, and appends its answer.
#[tactic(auto, using(crate::proofs::CallBounds::up_more))]
fn answer<R: Threads + Wait, A: Allocator + Clone>(
    rt: &R,
    alloc: Global,
    tested: &mut Tested<A>,
    asked: &Asked,
    said: &mut String,
) -> Result<Outcome, AllocError>
    requires { HasRoomForEvents tested.old.charges }
    ensures up { (n : ℕ) → HasEventsUpTo n tested.old.charges → HasEventsUpTo (n + 1) tested.new.charges }
{
    let charges = &mut tested.charges;
    let (path, pid, other) = (&asked.path, asked.pid, asked.other);
    match asked.call {
        Call::New => make_new(alloc, &tested.alloc, said),
        Call::Mkdir => say_done(said, Some(mkdir(charges, path))),
        Call::MakeGroup => say_done(said, Some(make_group(charges, path))),
        Call::Rmdir => say_attr(said, rmdir(charges, &mut tested.removed, path)),
        Call::TakeGroup => say_attr(said, take_group(charges, path)),
        Call::Restore => match tested.removed {
            None => say_done(said, None),
            Some(attr) => {
                let made = restore(alloc, charges, attr, path)?;
                say_done(said, made)
            }
        },
        Call::Write => say_limit(said, set_limit(charges, path, asked.file, asked.limit())),
        Call::Move => say_moved(said, migrate(charges, pid, path)),
        Call::Fork => say_peaks(said, fork(charges, pid, other)),
        Call::ForkOrCount => say_forked(said, fork_or_count(charges, pid, other, true)),
        Call::ForkUncounted => say_uncounted(said, fork_or_count(charges, pid, other, false)),
        Call::Exit => say_path(said, Some(exit(charges, pid))),
        Call::Kill => say_lost(said, kill(&with_threads(rt, &OpenGate), charges, path)),
        Call::KillAlone => say_lost(said, kill(&Alone, charges, path)),
        Call::Uncount => say_done(said, uncount(charges, path)),
        Call::Place => say_done(said, place(charges, pid, path)),
        Call::PlaceAll => {
            let one = asked.lost(alloc)?;
            say_done(said, place_one(&with_threads(rt, &OpenGate), charges, one))
        }
        Call::PlaceAllAlone => {
            let one = asked.lost(alloc)?;
            say_done(said, place_one(&Alone, charges, one))
        }
        Call::PlaceBoth => {
            let one = asked.lost(alloc)?;
            let above = asked.lost_above(alloc)?;
            let made = place_two(&with_threads(rt, &OpenGate), charges, one, above);
            kept(say_done(said, made))
        }
        Call::PlaceBothAlone => {
            let one = asked.lost(alloc)?;
            let above = asked.lost_above(alloc)?;
            kept(say_done(said, place_two(&Alone, charges, one, above)))
        }
        Call::Unfork => {
            let peaks = asked.peaks(alloc)?;
            say_done(said, unfork(charges, pid, &peaks))
        }
        Call::Unmove => {
            let peaks = asked.peaks(alloc)?;
            say_done(said, unmove(charges, pid, path, &peaks))
        }
        Call::SetPeaks => say_done(said, set_peaks(charges, path, asked.numbers.as_slice())),
        Call::Totals => say_totals(said, tested.charges.attr(path)),
        Call::Slot => {
            let slot = tested.charges.attr(path).map(|attr| u64::from(attr.slot));
            say_number(said, slot)
        }
        Call::Peak => say_number(said, tested.charges.attr(path).map(|attr| attr.peak)),
        Call::Current => say_number(said, charges.current(path)),
        Call::Populated => say_flag(said, charges.populated(path)),
        Call::Descendants => say_number(said, charges.descendants(path)),
        Call::Members => say_members(said, charges.members(&tested.alloc, path)),
        Call::Home => say_home(said, tested.charges.home(pid)),
        Call::Copy => is_copied(alloc, &tested.alloc, charges, said),
    }
}

impl<A: Allocator + Clone> Subject for Charged<A> {
    fn call<R: Threads + Wait + Sync>(
        &mut self,
        rt: &R,
        alloc: Global,
        case: &Case,
        said: &mut String,
    ) -> Result<Outcome, CaseFault> {
        let asked = ask(alloc, case)?;
        if self.calls == u32::MAX {
            return Err(CaseFault::Malformed);
        }
        let answered = answer(rt, alloc, &mut self.tested, &asked, said);
        self.calls += 1;
        match answered {
            Ok(outcome) => Ok(outcome),
            Err(AllocError) => Err(CaseFault::OutOfMemory),
        }
    }

    fn show(&mut self, alloc: Global, text: &mut String) -> Result<(), AllocError> {
        show(alloc, &mut self.tested.charges, text)
    }
}
