//! A core as the subject of cases, and the calls on it.
//!
//! | Call | Answer |
//! |---|---|
//! | `core SLOTS NODES` | nothing; the subject is a new core |
//! | an event (`events`) | after `step` of it: the words at the nodes of slot 0, after the name of the refusal if it was refused |
//! | two events or more | after `replay` of them: the same, with the index of the event that was refused before its refusal |
//! | `times N EVENTS` | how many of N replays did all their events; a round's number is in place of `#` |
//! | `query SLOT NODE`, `sum SLOT` | what the core answers |
//! | `core_in BYTES SLOTS NODES` | whether a new core fits in a heap of this size, and what it left there |
//! | `refused EVENTS` | what the replay leaves with each allocation refused in turn (`refused.rt`) |

ghost use Rattle.std.specs.Prelude.{◌≡◌, ◌≤◌, ◌⊎◌, IfOk};

use crate::events::{event_words, events, number};
use crate::refused::{core_fits, each_room};
use snzi_core::{At, Core, Event, Unlawful};
use std::alloc::{AllocError, Allocator, Global};
use std::sync::Wait;
use std::thread::Threads;
use test_support::{Case, CaseFault, Outcome, Subject};

/// A core with its shape.
#[derive(Drop)]
pub(crate) struct Shaped<A: Allocator + Clone> {
    core: Core<A>,
    slots: u16,
    nodes: u8,
    ghost slots_are: { core.slots ≡ slots },
    ghost nodes_are: { core.nodes ≡ nodes },
}

impl<A: Allocator + Clone> Shaped<A> {
    /// A new core.
    pub(crate) fn new(home: A, slots: u16, nodes: u8) -> Result<Shaped<A>, AllocError>
        requires slots { 1 ≤ slots }
        requires nodes { (nodes ≡ 1) ⊎ (nodes ≡ 3) ⊎ (nodes ≡ 7) ⊎ (nodes ≡ 15) }
    {
        let core = Core::new(home, slots, nodes)?;
        Ok(Shaped { core, slots, nodes })
    }

    /// Does one event by `step`, and several by `replay`. Returns where it stopped, and why.
    pub(crate) fn run(&mut self, events: &[Event<'_>]) -> Option<(usize, Unlawful)> {
        match events {
            [event] => match self.core.step(event) {
                Ok(()) => None,
                Err(unlawful) => Some((0, unlawful)),
            },
            events => self.core.replay(events).err(),
        }
    }

    /// Does the events. Says where they stopped and why, and the words at the nodes of slot 0.
    pub(crate) fn put_run(
        &mut self,
        events: &[Event<'_>],
        said: &mut String,
    ) -> Result<Option<(usize, Unlawful)>, AllocError> {
        let stop = self.run(events);
        put_stop(said, events.len(), stop)?;
        self.put_words(said, 0)?;
        Ok(stop)
    }

    /// The sum of a slot.
    pub(crate) fn sum(&self, slot: u16) -> Option<u64> {
        if slot < self.slots {
            Some(self.core.sum(slot))
        } else {
            None
        }
    }

    /// Whether some hand has a token at the node or below it.
    fn query(&self, slot: u16, node: u8) -> Option<bool> {
        if slot < self.slots && node < self.nodes {
            Some(self.core.query(At { slot, node }))
        } else {
            None
        }
    }

    /// Appends the words at the nodes of a slot.
    pub(crate) fn put_words(&self, said: &mut String, slot: u16) -> Result<(), AllocError> {
        if slot >= self.slots {
            return Ok(());
        }
        for node in 0..self.nodes {
            if !said.is_empty() {
                said.push(' ')?;
            }
            let word = self.core.word(At { slot, node });
            write!(said, "{word}")?;
        }
        Ok(())
    }
}

/// A core in this allocator, or none yet.
#[derive(Drop)]
pub(crate) struct Cores<A: Allocator + Clone> {
    home: A,
    core: Option<Shaped<A>>,
}

/// The number of slots that a word is, from 1 on.
fn slots_in(case: &Case, at: usize) -> Result<u16, CaseFault>
    ensures { IfOk result (λ n. 1 ≤ n) }
{
    match case.number(at)? {
        slots @ 1..=65_535 => Ok(slots as u16),
        _ => Err(CaseFault::Malformed),
    }
}

/// The number of nodes that a word is.
fn nodes_in(case: &Case, at: usize) -> Result<u8, CaseFault>
    ensures { IfOk result (λ n. (n ≡ 1) ⊎ (n ≡ 3) ⊎ (n ≡ 7) ⊎ (n ≡ 15)) }
{
    match case.word(at) {
        b"1" => Ok(1),
        b"3" => Ok(3),
        b"7" => Ok(7),
        b"15" => Ok(15),
        _ => Err(CaseFault::Malformed),
    }
}

/// The name of a refusal.
pub(crate) fn name_of(unlawful: Unlawful) -> &'static str {
    match unlawful {
        Unlawful::NoHand => "NoHand",
        Unlawful::NoToken => "NoToken",
        Unlawful::Cap => "Cap",
        Unlawful::StillHolding => "StillHolding",
        Unlawful::OutOfMemory => "OutOfMemory",
        Unlawful::NoNode => "NoNode",
        Unlawful::ZeroNode => "ZeroNode",
    }
}

/// Appends where a list of this many events stopped, and why.
fn put_stop(
    said: &mut String,
    count: usize,
    stop: Option<(usize, Unlawful)>,
) -> Result<(), AllocError> {
    let Some((at, unlawful)) = stop else {
        return Ok(());
    };
    if !said.is_empty() {
        said.push(' ')?;
    }
    if count > 1 {
        write!(said, "{at} ")?;
    }
    said.push_str(name_of(unlawful))
}

impl<A: Allocator + Copy + Drop> Cores<A> {
    /// No core yet.
    pub(crate) fn new(home: A) -> Cores<A> {
        Cores { home, core: None }
    }

    /// Makes the core that the words say.
    fn make(&mut self, case: &Case) -> Result<Outcome, CaseFault> {
        let (slots, nodes) = (slots_in(case, 1)?, nodes_in(case, 2)?);
        match Shaped::new(self.home, slots, nodes) {
            Ok(core) => {
                self.core = Some(core);
                Ok(Outcome::Answered)
            }
            Err(AllocError) => Ok(Outcome::Refused),
        }
    }

    /// Does events, and says what is left.
    fn run(&mut self, alloc: Global, case: &Case, said: &mut String) -> Result<Outcome, CaseFault> {
        let Some(core) = self.core.as_mut() else {
            return Err(CaseFault::Malformed);
        };
        let words = event_words(alloc, case, 0)?;
        let events = events(alloc, case, words.as_slice(), 0)?;
        match core.put_run(events.as_slice(), said)? {
            Some((0, Unlawful::OutOfMemory)) => Ok(Outcome::Refused),
            _ => Ok(Outcome::Answered),
        }
    }

    /// How many of the rounds did all their events.
    fn times(&mut self, alloc: Global, case: &Case) -> Result<u64, CaseFault> {
        let Some(core) = self.core.as_mut() else {
            return Err(CaseFault::Malformed);
        };
        let words = event_words(alloc, case, 2)?;
        let mut done = 0u64;
        for round in 0..case.number(1)? {
            let events = events(alloc, case, words.as_slice(), round.saturating_add(1))?;
            if core.run(events.as_slice()).is_none() {
                done = done.saturating_add(1);
            }
        }
        Ok(done)
    }

    /// Asks the core.
    fn ask(&self, case: &Case, said: &mut String) -> Result<(), CaseFault> {
        let Some(core) = self.core.as_ref() else {
            return Err(CaseFault::Malformed);
        };
        let slot = number(case, 1, 65_535)? as u16;
        if matches!(case.word(0), b"sum") {
            let Some(sum) = core.sum(slot) else {
                return Err(CaseFault::Malformed);
            };
            write!(said, "{sum}")?;
        } else {
            let Some(answer) = core.query(slot, number(case, 2, 255)? as u8) else {
                return Err(CaseFault::Malformed);
            };
            write!(said, "{answer}")?;
        }
        Ok(())
    }
}

impl<A: Allocator + Copy + Drop> Subject for Cores<A> {
    fn call<R: Threads + Wait + Sync>(
        &mut self,
        _rt: &R,
        alloc: Global,
        case: &Case,
        said: &mut String,
    ) -> Result<Outcome, CaseFault> {
        match case.word(0) {
            b"core" => return self.make(case),
            b"times" => {
                let done = self.times(alloc, case)?;
                write!(said, "{done}")?;
            }
            b"sum" | b"query" => self.ask(case, said)?,
            b"core_in" => {
                let bytes = (case.number(1)? % 1_048_576) as usize;
                let (fits, left) = core_fits(alloc, bytes, slots_in(case, 2)?, nodes_in(case, 3)?)?;
                let fits = if fits { "fits" } else { "out of memory" };
                write!(said, "{fits}, {left} bytes left")?;
            }
            b"refused" => each_room(alloc, case, said)?,
            _ => return self.run(alloc, case, said),
        }
        Ok(Outcome::Answered)
    }

    /// The words and the sum of each slot, and the first hands that there are.
    fn show(&mut self, _alloc: Global, text: &mut String) -> Result<(), AllocError> {
        let Some(core) = self.core.as_mut() else {
            return Ok(());
        };
        for slot in 0..core.slots {
            core.put_words(text, slot)?;
            let sum = core.sum(slot).unwrap_or(0);
            write!(text, " sum {sum}")?;
        }
        for hand in 0..4 {
            let is_there = core
                .run(&[Event::Load {
                    hand,
                    slot: 0,
                    word: 0,
                }])
                .is_none();
            write!(text, " {is_there}")?;
        }
        Ok(())
    }
}
