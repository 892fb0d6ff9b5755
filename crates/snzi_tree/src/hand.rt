//! The readers of a hand.
ghost use Rattle.std.specs.Prelude.{◌≡◌};
ghost use Rattle.snzi_core.specs.Holding.{held, out};
ghost use Rattle.snzi_tree.specs.Hands.{holds, own_events, counted};

use crate::board::Hand;

impl Hand {
    /// The number of the hand's tokens.
    pub fn held(&self) -> u64
        ensures { result ≡ held (holds self.now) }
    {
        self.held
    }

    /// How many helpers main has out; 0 for a helper.
    pub fn helpers_out(&self) -> u32
        ensures { result ≡ out (holds self.now).role }
    {
        self.helpers_out
    }

    /// The hand's steps on words so far, as many as the hand's events. A split and a join are one step each, of main. The
    /// number stops at the greatest u64.
    pub fn steps(&self) -> u64
        ensures value { result ≡ self.now.steps }
        ensures events { result ≡ counted 0 (own_events self.now) }
    {
        self.steps
    }
}
