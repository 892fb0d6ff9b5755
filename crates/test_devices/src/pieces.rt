//! A source that gives a text in pieces.

ghost use Rattle.std.specs.Prelude.{◌≡◌, None, false};

use replay_main::{DeviceFault, Source};

/// Gives a text in pieces of at most `size` bytes, then ends or fails.
#[derive(Drop)]
pub struct Pieces<'a> {
    rest: &'a [u8],
    size: usize,
    ends: bool,
    is_failed: bool,
}

impl<'a> Pieces<'a> {
    /// Gives this text, and then ends.
    pub fn new(text: &'a [u8], size: usize) -> Pieces<'a>
        ensures { ⟦<Pieces<'a> as Source>⟧.is_failed result ≡ false }
    {
        Pieces {
            rest: text,
            size,
            ends: true,
            is_failed: false,
        }
    }

    /// Gives this text, and then each read fails.
    pub fn failing(text: &'a [u8], size: usize) -> Pieces<'a>
        ensures { ⟦<Pieces<'a> as Source>⟧.is_failed result ≡ false }
    {
        Pieces {
            rest: text,
            size,
            ends: false,
            is_failed: false,
        }
    }
}

impl<'a> Source for Pieces<'a> {
    ghost left = { λ s. None };

    ghost is_failed = { λ s. s.is_failed };

    fn read(&mut self, buf: &mut [u8]) -> Result<usize, DeviceFault> {
        if self.rest.is_empty() && !self.ends {
            self.is_failed = true;
            return Err(DeviceFault);
        }
        let count = buf.len().min(self.size).min(self.rest.len());
        let (given, rest) = self.rest.split_at(count);
        buf[..count].copy_from_slice(given);
        self.rest = rest;
        Ok(count)
    }
}
