//! A source that gives one byte again and again.

ghost use Rattle.std.specs.Prelude.{◌≡◌, None, false};

use replay_main::{DeviceFault, Source};

/// Gives one byte a number of times, or endlessly, and fills each buffer as far as it can. It never fails.
#[derive(Drop)]
pub struct Repeated {
    byte: u8,
    left: Option<usize>,
    before: usize,
    given: usize,
}

impl Repeated {
    /// Gives this byte until `left` are given, or endlessly.
    pub fn new(byte: u8, left: Option<usize>) -> Repeated
        ensures { ⟦<Repeated as Source>⟧.is_failed result ≡ false }
    {
        Repeated {
            byte,
            left,
            before: 0,
            given: 0,
        }
    }

    /// How many bytes it gave.
    pub fn given(&self) -> usize {
        self.given
    }

    /// How many of them before the last read.
    pub fn before(&self) -> usize {
        self.before
    }
}

impl Source for Repeated {
    ghost left = { λ s. None };

    ghost is_failed = { λ s. false };

    fn read(&mut self, buf: &mut [u8]) -> Result<usize, DeviceFault> {
        let count = match self.left {
            Some(left) => buf.len().min(left),
            None => buf.len(),
        };
        buf.fill(self.byte);
        if let Some(left) = self.left {
            self.left = Some(left.saturating_sub(count));
        }
        self.before = self.given;
        self.given = self.given.saturating_add(count);
        Ok(count)
    }
}
