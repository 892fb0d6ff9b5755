//! A plain meter and one over a board, side by side.
//!
//! | Call | Answer |
//! |---|---|
//! | `calls STRIPE SLOT/LEAF SLOT/LEAF ..` | the charges that there are are removed, from this stripe, and these are added, each by a call: the counts at slots 0 and 1 and at the last slot |
//! | `settle STRIPE SLOT/LEAF ..` | the same by a settlement |
//! | `meet PARTS STRIPE SLOT/LEAF ..` | the same, where the parts on the board wait for one another; then, whether they met |
//! | `drawn ROUNDS` | after how many rounds the meters differ. In each round the charges are replaced by drawn ones: by calls in every third round, by a settlement in the others |
//!
//! If the meters differ at some slot, the answer ends in `differ`.

ghost use Rattle.std.specs.Prelude.{◌<◌, ◌≤◌, length};
ghost use Rattle.snzi_core.specs.Holding.{held};
ghost use Rattle.snzi_tokens.specs.Listed.{IsWithin};
ghost use Rattle.pids_charge.specs.Table.{table_at, table_held};
ghost use Rattle.pids_charge.specs.declared.plain.TheConstants.{SLOTS, LEAVES};
ghost use Rattle.board_tests.specs.Tokens.{HoldsTokens, board_content};

use crate::drawn::{drawn, next};
use crate::meeting::Meeting;
use crate::swap::{Exchange, Way, alike, counts, fits, swap};
use board_meter::BoardMeter;
use pids_charge::{Gate, LEAVES, OpenGate, PlainMeter, SLOTS, Token};
use std::alloc::{AllocError, Global};
use std::sync::Wait;
use std::thread::Threads;
use test_support::{Case, CaseFault, Outcome, Subject};

/// A plain meter and one over a board, with the charges that both have.
#[derive(Drop)]
pub(crate) struct Meters {
    plain: PlainMeter<Global>,
    board: BoardMeter,
    charges: Vec<Token>,
    ghost within: { IsWithin SLOTS LEAVES charges.items },
    ghost few: { length charges.items ≤ 1000 },
    ghost plain_holds: { HoldsTokens charges.items (table_at plain) (table_held plain) },
    ghost board_holds: { HoldsTokens charges.items (board_content board) (held board) },
}

/// The token that a word is.
fn token(word: &[u8]) -> Option<Token> {
    let (slot, leaf) = str::from_utf8(word).ok()?.split_once('/')?;
    Some(Token {
        slot: slot.parse::<u16>().ok()?,
        leaf: leaf.parse::<u8>().ok()?,
    })
}

/// The tokens that the words from this one on are.
fn tokens(alloc: Global, case: &Case, from: usize) -> Result<Vec<Token>, CaseFault> {
    let mut tokens = Vec::new(alloc);
    for at in from..case.count() {
        let Some(token) = token(case.word(at)) else {
            return Err(CaseFault::Malformed);
        };
        if tokens.push(token).is_err() {
            return Err(CaseFault::OutOfMemory);
        }
    }
    Ok(tokens)
}

/// The charges to come, and how those that there are make room for them.
#[derive(Drop)]
struct Change {
    way: Way,
    stripe: u8,
    charges: Vec<Token>,
    ghost stripe_is: { stripe < LEAVES },
}

/// The change with the stripe and the tokens that the words from this one on are.
fn read_change(alloc: Global, case: &Case, from: usize) -> Result<Change, CaseFault> {
    let way = match case.word(0) {
        b"calls" => Way::Calls,
        _ => Way::Settlement,
    };
    let stripe = (case.number(from)? % LEAVES as u64) as u8;
    let charges = tokens(alloc, case, from.saturating_add(1))?;
    Ok(Change {
        way,
        stripe,
        charges,
    })
}

impl Meters {
    /// Two new meters.
    pub(crate) fn new(alloc: Global) -> Result<Meters, AllocError> {
        Ok(Meters {
            plain: PlainMeter::new(alloc)?,
            board: BoardMeter::new(alloc)?,
            charges: Vec::new(alloc),
        })
    }

    /// Replaces the charges of both meters, with these test hooks. Returns whether the meters are alike; None if there are no
    /// such charges.
    fn replace<R: Threads + Wait>(
        &mut self,
        rt: &R,
        open: &(dyn Gate + Sync),
        gate: &(dyn Gate + Sync),
        change: Change,
    ) -> Option<bool> {
        let Change {
            way,
            stripe,
            charges,
        } = change;
        if !fits(charges.as_slice()) {
            return None;
        }
        let leaving = self.charges.as_slice();
        let arriving = charges.as_slice();
        let exchange = Exchange {
            way,
            stripe,
            leaving,
            arriving,
        };
        swap(rt, &mut self.plain, open, &exchange);
        swap(rt, &mut self.board, gate, &exchange);
        self.charges = charges;
        Some(alike(&mut self.plain, &mut self.board, SLOTS as u16))
    }

    /// Replaces the charges, and says the counts.
    fn put_replaced<R: Threads + Wait>(
        &mut self,
        rt: &R,
        open: &(dyn Gate + Sync),
        gate: &(dyn Gate + Sync),
        change: Change,
        said: &mut String,
    ) -> Result<(), CaseFault> {
        let Some(is_alike) = self.replace(rt, open, gate, change) else {
            return Err(CaseFault::Malformed);
        };
        let [first, second, last] = counts(&mut self.plain);
        write!(said, "{first} {second} {last}")?;
        if !is_alike {
            said.push_str(" differ")?;
        }
        Ok(())
    }

    /// After how many of these rounds the meters differ.
    fn draw<R: Threads + Wait>(
        &mut self,
        rt: &R,
        alloc: Global,
        rounds: u64,
    ) -> Result<u64, AllocError> {
        let mut number = 1;
        for round in 0..rounds {
            number = next(number);
            let way = if round % 3 == 0 {
                Way::Calls
            } else {
                Way::Settlement
            };
            let charges = drawn(alloc, number)?;
            let change = Change {
                way,
                stripe: (round % LEAVES as u64) as u8,
                charges,
            };
            if self.replace(rt, &OpenGate, &OpenGate, change) != Some(true) {
                return Ok(round);
            }
        }
        Ok(rounds)
    }
}

impl Subject for Meters {
    fn call<R: Threads + Wait + Sync>(
        &mut self,
        rt: &R,
        alloc: Global,
        case: &Case,
        said: &mut String,
    ) -> Result<Outcome, CaseFault> {
        match case.word(0) {
            b"calls" | b"settle" => {
                let change = read_change(alloc, case, 1)?;
                self.put_replaced(rt, &OpenGate, &OpenGate, change, said)?;
            }
            b"meet" => {
                let change = read_change(alloc, case, 2)?;
                let meeting = Meeting::new(case.number(1)?.min(9) as usize);
                self.put_replaced(rt, &OpenGate, &meeting, change, said)?;
                said.push_str(meeting.said())?;
            }
            b"drawn" => {
                let rounds = self.draw(rt, alloc, case.number(1)?)?;
                write!(said, "{rounds}")?;
            }
            _ => return Err(CaseFault::Malformed),
        }
        Ok(Outcome::Answered)
    }

    fn show(&mut self, _alloc: Global, _text: &mut String) -> Result<(), AllocError> {
        Ok(())
    }
}
