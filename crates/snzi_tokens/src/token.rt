//! An arrival at a leaf.

/// An arrival at a leaf of a slot. If the slot has w nodes, leaf j is node (w - 1) / 2 + j.
#[derive(Clone, Copy)]
pub struct Token {
    pub slot: u16,
    pub leaf: u8,
}
