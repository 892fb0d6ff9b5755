//! Lists of tokens from a generator of numbers.

use pids_charge::Token;
use std::alloc::{AllocError, Global};

/// The next number, by a linear congruence modulo 2^64.
pub(crate) fn next(number: u64) -> u64 {
    number
        .wrapping_mul(6_364_136_223_846_793_005)
        .wrapping_add(1_442_695_040_888_963_407)
}

/// Up to 63 tokens at eight slots, by the numbers from this one on.
pub(crate) fn drawn(alloc: Global, from: u64) -> Result<Vec<Token>, AllocError> {
    let mut tokens = Vec::new(alloc);
    let mut number = from;
    for _ in 0..(from >> 58) {
        number = next(number);
        let slot = (number >> 61) as u16;
        let leaf = ((number >> 58) & 7) as u8;
        tokens.push(Token { slot, leaf })?;
    }
    Ok(tokens)
}
