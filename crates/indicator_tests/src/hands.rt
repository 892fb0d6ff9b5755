//! A board with one slot as the subject of cases: its main hand, a helper, and the calls by them.
//!
//! | Call | Answer |
//! |---|---|
//! | `arrive LEAF`, `depart`, `add STRIPE N`, `take STRIPE N` | by main; `depart` is of main's newest token |
//! | `arrivals LEAF N` | main arrives N times |
//! | `split`, `split_all` | a new helper with no token, or with all of main's, in place of the last one, which stays out |
//! | `splits N` | N helpers with no token that stay out |
//! | `steps`, `held`, `helpers_out`, `query`, `sum` | what main says or is answered; `query` 1 or 0 |
//! | `helper steps`, `helper held`, `helper query`, `helper sum` | the same of the helper |
//! | `close` | `true`; `false` if a helper is out |
//! | `threads LEAVES END` | what four helpers in threads of their own leave on a new board (`threads.rt`) |

ghost use Rattle.std.specs.Prelude.{◌≡◌, ℕ};
ghost use Rattle.std.specs.Option.{ForSome};
ghost use Rattle.snzi_tokens.specs.Listed.{IsWithin, listed_at};
ghost use Rattle.snzi_tree.specs.Contents.{content_of};
ghost use Rattle.snzi_tree.specs.Hands.{IsHandOf, IsMain, SameHand, holds};
ghost use Rattle.snzi_tree.specs.View.{IsBoard};

use crate::threads::{ends, put_threads};
use snzi_core::HELPER_CAP;
use snzi_tree::{Board, HELD_MAX, Hand, Token};
use std::alloc::{AllocError, Global};
use std::sync::Wait;
use std::thread::Threads;
use test_support::{Case, CaseFault, Outcome, Subject};

/// A board with its main hand, whose tokens are these, the newest last, and with the helper that was split off last.
#[derive(Drop)]
pub(crate) struct Hands<const W: usize, const L: usize> {
    board: Board<1, W, L>,
    main: Hand,
    tokens: Vec<Token>,
    helper: Option<Hand>,
    ghost here: { IsHandOf board main },
    ghost role: { IsMain main },
    ghost within: { IsWithin 1 L tokens.items },
    ghost content: { (s j : ℕ) → content_of W L (holds main) s j ≡ listed_at tokens.items s j },
    ghost helper_here: { ForSome helper (λ hand. IsHandOf board hand) },
}

/// What a hand says or is answered.
fn ask_hand<const W: usize, const L: usize>(
    board: &Board<1, W, L>,
    hand: &mut Hand,
    what: &[u8],
) -> Option<u64>
    requires here { IsHandOf board.now hand.old }
    ensures hand { SameHand hand.old hand.new × (holds hand.new ≡ holds hand.old) }
{
    match what {
        b"steps" => Some(hand.steps()),
        b"held" => Some(hand.held()),
        b"query" => Some(u64::from(board.query(hand, 0))),
        b"sum" => Some(board.sum(hand, 0)),
        _ => None,
    }
}

impl<const W: usize, const L: usize> Hands<W, L> {
    /// A new board.
    pub(crate) fn new(alloc: Global) -> Result<Hands<W, L>, AllocError>
        requires { IsBoard 1 W L }
    {
        let (board, main) = Board::new(alloc)?;
        Ok(Hands {
            board,
            main,
            tokens: Vec::new(alloc),
            helper: None,
        })
    }

    /// Main arrives at the leaf this many times. Returns whether it can.
    fn arrive(&mut self, leaf: u64, times: u64) -> bool {
        if leaf >= L as u64 {
            return false;
        }
        let token = Token {
            slot: 0,
            leaf: leaf as u8,
        };
        for _ in 0..times {
            if self.main.held() >= HELD_MAX || self.tokens.push(token).is_err() {
                return false;
            }
            self.board.arrive(&mut self.main, token);
        }
        true
    }

    /// Main departs with its newest token. Returns whether it has one.
    fn depart(&mut self) -> bool {
        match self.tokens.pop() {
            Some(token) => {
                self.board.depart(&mut self.main, token);
                true
            }
            None => false,
        }
    }

    /// Main splits off helpers with no token. Returns whether it can.
    fn split(&mut self, times: u64) -> bool {
        for _ in 0..times {
            if u64::from(self.main.helpers_out()) >= HELPER_CAP {
                return false;
            }
            self.helper = Some(self.board.split(&mut self.main, &[]));
        }
        true
    }

    /// Main splits off a helper with all its tokens. Returns whether it can.
    fn split_all(&mut self) -> bool {
        if u64::from(self.main.helpers_out()) >= HELPER_CAP {
            return false;
        }
        self.helper = Some(self.board.split(&mut self.main, self.tokens.as_slice()));
        self.tokens.clear();
        true
    }

    /// Changes an amount of main. Returns whether there is such a stripe.
    fn add(&mut self, stripe: u64, n: u64, is_taken: bool) -> bool {
        if stripe >= L as u64 {
            return false;
        }
        if is_taken {
            self.board.take(&mut self.main, 0, stripe as u8, n);
        } else {
            self.board.add(&mut self.main, 0, stripe as u8, n);
        }
        true
    }

    /// Makes a call that changes something. Returns whether it is one, and can be made.
    fn change(&mut self, case: &Case) -> bool {
        let first = case.number(1).unwrap_or(u64::MAX);
        let second = case.number(2).unwrap_or(u64::MAX);
        match case.word(0) {
            b"arrive" => self.arrive(first, 1),
            b"arrivals" => self.arrive(first, second),
            b"depart" => self.depart(),
            b"add" => self.add(first, second, false),
            b"take" => self.add(first, second, true),
            b"split" => self.split(1),
            b"splits" => self.split(first),
            b"split_all" => self.split_all(),
            _ => false,
        }
    }

    /// What main or the helper says or is answered.
    fn ask(&mut self, case: &Case) -> Option<u64> {
        match case.word(0) {
            b"helpers_out" => Some(u64::from(self.main.helpers_out())),
            b"helper" => {
                let mut helper = self.helper.take()?;
                let answer = ask_hand(&self.board, &mut helper, case.word(1));
                self.helper = Some(helper);
                answer
            }
            what => ask_hand(&self.board, &mut self.main, what),
        }
    }

    /// Makes a call.
    fn answer(&mut self, case: &Case, said: &mut String) -> Result<(), CaseFault> {
        if self.change(case) {
            return Ok(());
        }
        let Some(number) = self.ask(case) else {
            return Err(CaseFault::Malformed);
        };
        write!(said, "{number}")?;
        Ok(())
    }
}

/// A board as the subject of cases; none once it is closed.
#[derive(Drop)]
pub(crate) struct Boards<const W: usize, const L: usize> {
    hands: Option<Hands<W, L>>,
}

impl<const W: usize, const L: usize> Boards<W, L> {
    /// A new board.
    pub(crate) fn new(alloc: Global) -> Result<Boards<W, L>, AllocError>
        requires { IsBoard 1 W L }
    {
        let hands = Hands::new(alloc)?;
        Ok(Boards { hands: Some(hands) })
    }

    /// Closes the board. Returns whether there was one, and no helper was out.
    fn close(&mut self) -> bool {
        match self.hands.take() {
            Some(
                Hands {
                    board,
                    main,
                    tokens: _,
                    helper: _,
                },
            ) => ends(board, main),
            None => false,
        }
    }
}

impl<const W: usize, const L: usize> Subject for Boards<W, L> {
    fn call<R: Threads + Wait + Sync>(
        &mut self,
        rt: &R,
        alloc: Global,
        case: &Case,
        said: &mut String,
    ) -> Result<Outcome, CaseFault> {
        match case.word(0) {
            b"close" => {
                let closed = self.close();
                write!(said, "{closed}")?;
            }
            b"threads" => put_threads(rt, alloc, case, said)?,
            _ => match self.hands.as_mut() {
                Some(hands) => hands.answer(case, said)?,
                None => return Err(CaseFault::Malformed),
            },
        }
        Ok(Outcome::Answered)
    }

    fn show(&mut self, _alloc: Global, _text: &mut String) -> Result<(), AllocError> {
        Ok(())
    }
}
