//! The type `BoardMeter`.
ghost use Rattle.std.specs.Prelude.{◌≡◌, ℕ, ◌+◌, ◌<◌, ◌≤◌, length, IfOk, IsTrue};
ghost use Rattle.snzi_core.specs.Holding.{held};
ghost use Rattle.snzi_tree.specs.Contents.{content_of};
ghost use Rattle.pids_charge.specs.Content.{IsEmpty};

use crate::charges::{charge, uncharge};
use crate::part::Exchange;
use crate::parts::settle_parts;
use crate::shape::{GROUPS, NODES, ROW};
use pids_charge::{Gate, Meter, Token, part_count};
use snzi_tree::{Board, Hand};
use std::alloc::{AllocError, Global};
use std::marker::Model;
use std::sync::Wait;
use std::thread::Threads;

/// A meter of atomic words: a board and its main hand. Contracts see it as what that hand holds.
#[derive(Drop)]
pub struct BoardMeter {
    board: Board<GROUPS, NODES, ROW>,
    main: Hand,
}

impl Model for BoardMeter {
    ghost use Rattle.snzi_core.specs.declared.holding.Holding.{Holding};
    ghost use Rattle.snzi_tree.specs.Hands.{IsHandOf, holds};
    ghost use Rattle.board_meter.specs.Held.{IsMeter};
    ghost use Rattle.board_meter.specs.declared.shape.TheConstants.{NODES, ROW};

    ghost Value = { Holding };

    ghost view = { λ m. holds m.main };

    ghost invariant = { λ m. IsHandOf m.board m.main × IsMeter NODES ROW (holds m.main) };
}

impl BoardMeter {
    /// An empty meter. Allocates the board's 23,552 words.
    ///
    /// # Errors
    ///
    /// `AllocError` when out of memory.
    pub fn new(alloc: Global) -> Result<BoardMeter, AllocError>
        ensures empty { IfOk result (λ m. IsEmpty (content_of NODES ROW m) (held m)) }
    {
        let (board, main) = Board::new(alloc)?;
        Ok(BoardMeter { board, main })
    }
}

impl Meter for BoardMeter {
    const SLOTS: u16 = GROUPS as u16;

    const LEAVES: u8 = ROW as u8;

    ghost use Rattle.std.proofs.Common.{rules};
    ghost use Rattle.board_meter.specs.declared.shape.TheConstants.{GROUPS, NODES, ROW};

    ghost SLOTS = { GROUPS };

    ghost LEAVES = { ROW };

    ghost content = { content_of NODES ROW };

    ghost held = { held };

    fn charge(&mut self, slot: u16, leaf: u8) {
        charge(&self.board, &mut self.main, Token { slot, leaf });
    }

    fn uncharge(&mut self, slot: u16, leaf: u8, stripe: u8) {
        uncharge(&self.board, &mut self.main, Token { slot, leaf }, stripe);
    }

    fn current(&mut self, slot: u16) -> u64 {
        self.board.sum(&mut self.main, slot)
    }

    fn populated(&mut self, slot: u16) -> bool {
        self.board.query(&mut self.main, slot)
    }

    fn settle<R: Threads + Wait>(
        &mut self,
        rt: &R,
        gate: &(dyn Gate + Sync),
        stripe: u8,
        leaving: &[Token],
        arriving: &[Token],
    ) {
        let parts = part_count(leaving, arriving);
        let exchange = Exchange {
            stripe,
            leaving,
            arriving,
        };
        let main = &mut self.main;
        settle_parts(rt, &self.board, main, &gate, parts, &exchange);
    }

    ghost slots_positive = { Prim.search rules };

    ghost leaves_positive = { Prim.search rules };
}
