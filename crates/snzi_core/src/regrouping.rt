//! How a split and a join change the hands.
ghost use Rattle.std.specs.Prelude.{◌≡◌, ◌≢◌, ℕ, ◌+◌, ◌-◌, ◌*◌, ◌/◌, ◌%◌, ◌^◌, ◌<◌, ◌≤◌, length, replicate, slice_index_or, slice_set, true, false, None, IfOk, MatchResult};
ghost use Rattle.std.specs.List.{list_all};
ghost use Rattle.snzi_core.specs.Holding.{tokens_at, empty, helper_with, rejoined};
ghost use Rattle.snzi_core.specs.CoreState.{hand_of};
ghost use Rattle.snzi_core.specs.Lawful.{has_token, helps, overflows, some_word, refuses_split};
ghost use Rattle.snzi_core.specs.Effect.{counts, split_off, joined};
ghost use Rattle.snzi_core.specs.Kept.{IsCore};

use crate::hand::Hand;
use crate::holding::Role;
use crate::machine::Core;
use snzi_tokens::Token;
use std::alloc::{AllocError, Allocator};

// The first hand takes all that another has, which is then spent.
fn unite<A: Allocator>(hands: &mut [Hand<A>], helper: usize)
    requires place { (0 < helper) × (helper < length hands.old) }
    requires tokens { length (slice_index_or hands.old helper (empty Role.Spent)).tokens ≡ length (slice_index_or hands.old 0 (empty Role.Spent)).tokens }
    requires amounts { length (slice_index_or hands.old helper (empty Role.Spent)).amounts ≡ length (slice_index_or hands.old 0 (empty Role.Spent)).amounts }
    requires room { (i : ℕ) → tokens_at i (slice_index_or hands.old 0 (empty Role.Spent)) + tokens_at i (slice_index_or hands.old helper (empty Role.Spent)) < 2 ^ 64 }
    ensures { hands.new ≡ slice_set (slice_set hands.old 0 (rejoined (slice_index_or hands.old 0 (empty Role.Spent)) (slice_index_or hands.old helper (empty Role.Spent)))) helper (empty Role.Spent) }
{
    let (mains, helpers) = hands.split_at_mut(1);
    let gone = &mut helpers[helper - 1];
    mains[0].absorb(gone);
    gone.spend();
}

impl<A: Allocator + Clone> Core<A> {
    // A helper with the tokens of a share.
    fn helper_with(&self, share: &[Token]) -> Result<Hand<A>, AllocError>
        requires { list_all (has_token self.now) share.now ≡ true }
        ensures { IfOk result (λ h. h ≡ helper_with (counts self.now share.now) (replicate (length self.now.words) 0)) }
    {
        let alloc = self.words.allocator().clone()?;
        let mut helper = Hand::fresh(alloc, Role::Helper, self.words.len())?;
        for token in share {
            helper.gain(self.token_word(*token));
        }
        Ok(helper)
    }

    // Main gives a share to a new helper. The helper's memory is allocated first.
    pub(crate) fn split(&mut self, share: &[Token]) -> Result<(), AllocError>
        requires { refuses_split self.old share.now ≡ None }
        ensures { MatchResult result (λ _. self.new ≡ split_off self.old share.now) (λ _. self.new ≡ self.old) }
    {
        let helper = self.helper_with(share)?;
        self.hands.reserve(1)?;
        self.hands[0].give(&helper);
        self.hands.push(helper)?;
        Ok(())
    }

    // Main takes all that a helper has. The helper's number is then spent.
    pub(crate) fn join(&mut self, helper: u32)
        requires live { helps (hand_of self.old helper).role ≡ true }
        requires room { some_word self.old (overflows self.old helper) ≡ false }
        ensures { self.new ≡ joined self.old helper }
    {
        unite(self.hands.as_mut_slice(), helper as usize);
    }
}
