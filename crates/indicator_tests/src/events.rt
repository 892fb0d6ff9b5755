//! Events in the words of a call.
//!
//! `load HAND SLOT WORD`, `fast HAND SLOT NODE`, `root HAND SLOT`, `child HAND SLOT NODE`, `leave HAND SLOT NODE`, `stripe HAND
//! SLOT STRIPE N`, `split SLOT LEAF SLOT LEAF ..` with the tokens of the share, and `join HELPER`. The word `;` separates the
//! events of a list. `#` stands for the number of the round.

ghost use Rattle.std.specs.Prelude.{◌≤◌, IfOk};

use snzi_core::{At, Event, Token};
use std::alloc::Global;
use test_support::{Case, CaseFault};

/// The words of one event: where they begin, where the next event begins, and the share if it is a split.
#[derive(Drop)]
pub(crate) struct EventWords {
    from: usize,
    to: usize,
    share: Vec<Token>,
}

/// The number that a word is, up to this one.
pub(crate) fn number(case: &Case, at: usize, most: u64) -> Result<u64, CaseFault>
    ensures { IfOk result (λ n. n ≤ most) }
{
    let number = case.number(at)?;
    if number > most {
        return Err(CaseFault::Malformed);
    }
    Ok(number)
}

/// The tokens of a split, by their slots and leaves between these words.
fn share(alloc: Global, case: &Case, from: usize, to: usize) -> Result<Vec<Token>, CaseFault> {
    let mut tokens = Vec::new(alloc);
    for at in from..to {
        if at % 2 != from % 2 {
            let slot = number(case, at.saturating_sub(1), 65_535)? as u16;
            let leaf = number(case, at, 255)? as u8;
            if tokens.push(Token { slot, leaf }).is_err() {
                return Err(CaseFault::OutOfMemory);
            }
        }
    }
    Ok(tokens)
}

/// The words of the events from this word on.
pub(crate) fn event_words(
    alloc: Global,
    case: &Case,
    first: usize,
) -> Result<Vec<EventWords>, CaseFault> {
    let mut found = Vec::new(alloc);
    let mut from = first;
    for to in first..=case.count() {
        if to == case.count() || matches!(case.word(to), b";") {
            let share = match case.word(from) {
                b"split" => share(alloc, case, from.saturating_add(1), to)?,
                _ => Vec::new(alloc),
            };
            if found.push(EventWords { from, to, share }).is_err() {
                return Err(CaseFault::OutOfMemory);
            }
            from = to.saturating_add(1);
        }
    }
    Ok(found)
}

/// The first four numbers between these words; 0 for those that are missing.
fn numbers(case: &Case, from: usize, to: usize, round: u64) -> Result<[u64; 4], CaseFault> {
    let mut numbers = [0; 4];
    for (at, number) in (from..to).zip(numbers.iter_mut()) {
        *number = match case.word(at) {
            b"#" => round,
            _ => case.number(at)?,
        };
    }
    Ok(numbers)
}

/// The event that these words are, without its share; None if they are none.
fn plain_event(name: &[u8], numbers: [u64; 4]) -> Option<Event<'static>> {
    let [hand, slot, word, n] = numbers;
    if hand > 4_294_967_295 || slot > 65_535 || word > 255 {
        return None;
    }
    let (hand, slot, word) = (hand as u32, slot as u16, word as u8);
    let at = At { slot, node: word };
    match name {
        b"load" => Some(Event::Load { hand, slot, word }),
        b"fast" => Some(Event::FastAdd { hand, at }),
        b"root" => Some(Event::RootAdd { hand, slot }),
        b"child" => Some(Event::ChildAdd { hand, at }),
        b"leave" => Some(Event::Leave { hand, at }),
        b"stripe" => Some(Event::StripeAdd {
            hand,
            slot,
            stripe: word,
            n,
        }),
        b"join" => Some(Event::Join { helper: hand }),
        _ => None,
    }
}

/// The event that these words are.
fn event<'a>(case: &Case, words: &'a EventWords, round: u64) -> Result<Event<'a>, CaseFault> {
    let name = case.word(words.from);
    if let b"split" = name {
        let share = words.share.as_slice();
        return Ok(Event::Split { share });
    }
    let numbers = numbers(case, words.from.saturating_add(1), words.to, round)?;
    match plain_event(name, numbers) {
        Some(event) => Ok(event),
        None => Err(CaseFault::Malformed),
    }
}

/// The events that these words are.
pub(crate) fn events<'a>(
    alloc: Global,
    case: &Case,
    words: &'a [EventWords],
    round: u64,
) -> Result<Vec<Event<'a>>, CaseFault> {
    let mut events = Vec::new(alloc);
    for words in words {
        if events.push(event(case, words, round)?).is_err() {
            return Err(CaseFault::OutOfMemory);
        }
    }
    Ok(events)
}
