//! A fixed number of stripes with one sum.
ghost use Rattle.std.specs.Prelude.{◌≡◌, ℕ, ◌+◌, ◌-◌, ◌%◌, ◌^◌, ◌<◌};

use std::marker::Model;

/// `L` stripes that together keep one sum, modulo 2^64.
#[derive(Drop)]
pub struct Stripes<const L: usize> {
    words: [u64; L],
}

impl<const L: usize> Model for Stripes<L> {
    ghost use Rattle.std.specs.Prelude.{ℕ};

    ghost Value = { ℕ };

    ghost use Rattle.striped_adder.specs.Total.{total};

    ghost view = { λ s. total s.words };
}

impl<const L: usize> Stripes<L> {
    /// Stripes with the sum zero.
    pub fn new() -> Self
        ensures { result ≡ 0 }
    {
        Stripes { words: [0; L] }
    }

    /// Adds `n` to the sum, in the stripe `stripe`.
    pub fn add(&mut self, stripe: usize, n: u64)
        requires { stripe < L }
        ensures { self.new ≡ (self.old + n) % 2 ^ 64 }
    {
        self.words[stripe] = self.words[stripe].wrapping_add(n);
    }

    /// Subtracts `n` from the sum, in the stripe `stripe`. It need not be the stripe to which the
    /// amount was added.
    pub fn take(&mut self, stripe: usize, n: u64)
        requires { stripe < L }
        ensures { self.new ≡ (self.old + (2 ^ 64 - n)) % 2 ^ 64 }
    {
        self.words[stripe] = self.words[stripe].wrapping_sub(n);
    }

    /// Everything added less everything taken, modulo 2^64. Reads each stripe once.
    pub fn sum(&self) -> u64
        ensures { result ≡ self.now }
    {
        let mut all: u64 = 0;
        for word in &self.words {
            all = all.wrapping_add(*word);
        }
        all
    }
}
