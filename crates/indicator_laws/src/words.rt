//! The laws of a core's words, by number, and of what an event changes in a hand.

ghost use Rattle.std.specs.Prelude.{◌≡◌, ◌≢◌, ◌↔◌, ◌+◌, ◌*◌, ◌<◌, ◌≤◌, ◌∷◌, ℕ, []};
ghost use Rattle.snzi_tokens.specs.Listed.{one_at, over_leaves};
ghost use Rattle.snzi_core.specs.declared.event.Event.{Event};
ghost use Rattle.snzi_core.specs.declared.holding.Holding.{Holding};
ghost use Rattle.snzi_core.specs.Balance.{Present};
ghost use Rattle.snzi_core.specs.Changes.{Gains, Loses, Raises};
ghost use Rattle.snzi_core.specs.CoreState.{CoreState, SameShape, above, node_of, start};
ghost use Rattle.snzi_core.specs.Effect.{after, slot_amounts};
ghost use Rattle.snzi_core.specs.Holding.{gain, lose, raise, tokens_at};
ghost use Rattle.snzi_core.specs.Shape.{leaves, line, stripe, stripe_word};
ghost use Rattle.snzi_tree.specs.Contents.{token_word};
ghost use Rattle.indicator_laws.specs.Cores.{at, main_with, paid, token};

/// The words of slots of three nodes and two stripes, by number; 1, 3, 7 and 15 nodes have 1, 2, 4 and 8 leaves.
pub fn words_by_number()
    ensures leaves { (leaves 1 ≡ 1) × (leaves 3 ≡ 2) × (leaves 7 ≡ 4) × (leaves 15 ≡ 8) }
    ensures halves { (k : ℕ) → leaves (2 * k + 1) ≡ k + 1 }
    ensures nodes { (node_of paid (at 0 0) ≡ 0) × (node_of paid (at 0 2) ≡ 2) × (node_of paid (at 1 0) ≡ 5) × (node_of paid (at 1 2) ≡ 7) }
    ensures stripes { (stripe_word 3 2 0 0 ≡ 3) × (stripe_word 3 2 0 1 ≡ 4) × (stripe_word 3 2 1 0 ≡ 8) × (stripe_word 3 2 1 1 ≡ 9) }
    ensures kinds { (line 3 5 (stripe_word 3 2 1 0) ≡ stripe) × (line 3 5 (node_of paid (at 1 2)) ≢ stripe) }
    ensures tokens { (token_word 3 2 (token 0 0) ≡ 1) × (token_word 3 2 (token 0 1) ≡ 2) × (token_word 3 2 (token 1 1) ≡ 7) × (token_word 1 1 (token 4 0) ≡ 8) }
    ensures parents { (above paid 1 ≡ 0) × (above paid 2 ≡ 0) × (above paid 6 ≡ 5) × (above paid 7 ≡ 5) }
    ensures own_parents { (above paid 0 ≡ 0) × (above paid 5 ≡ 5) × (above paid 3 ≡ 3) × (above paid 9 ≡ 9) }
{}

/// A sum over leaves has each of them once. Two sums are the sum of both.
pub fn sums_over_leaves()
    ensures three { over_leaves 3 (λ j. j + 10) ≡ 33 }
    ensures none { (f : ℕ → ℕ) → over_leaves 0 f ≡ 0 }
    ensures both { (n : ℕ) (f g : ℕ → ℕ) → over_leaves n (λ j. f j + g j) ≡ over_leaves n f + over_leaves n g }
    ensures within { (n s j : ℕ) → j < n → over_leaves n (one_at s j s) ≡ 1 }
    ensures beyond { (n s j : ℕ) → n ≤ j → over_leaves n (one_at s j s) ≡ 0 }
{}

/// A hand that gains a token has one more there and nothing else; losing it undoes that. An amount rises modulo 2^64.
pub fn changes_of_a_hand()
    ensures gained { (h : Holding) (j : ℕ) → Gains j h (gain h j) }
    ensures lost { (h : Holding) (j : ℕ) → 0 < tokens_at j h → Loses j h (lose h j) }
    ensures raised { (h : Holding) (j n : ℕ) → Raises j n h (raise h j n) }
    ensures back { (h k : Holding) (j : ℕ) → Gains j h k ↔ Loses j k h }
    ensures one { Gains 1 (main_with 0 (1 ∷ 2 ∷ []) (3 ∷ [])) (main_with 0 (1 ∷ 3 ∷ []) (3 ∷ [])) }
    ensures not_two { Gains 1 (main_with 0 (1 ∷ 2 ∷ []) []) (main_with 0 (1 ∷ 4 ∷ []) []) → ⊥ }
    ensures not_elsewhere { Gains 1 (main_with 0 (1 ∷ 2 ∷ []) []) (main_with 0 (2 ∷ 3 ∷ []) []) → ⊥ }
    ensures same_role { Gains 1 (main_with 0 (1 ∷ 2 ∷ []) []) (main_with 1 (1 ∷ 3 ∷ []) []) → ⊥ }
    ensures wraps { Raises 0 2 (main_with 0 [] (18446744073709551615 ∷ [])) (main_with 0 [] (1 ∷ [])) }
    ensures not_more { Raises 0 2 (main_with 0 [] (5 ∷ [])) (main_with 0 [] (8 ∷ [])) → ⊥ }
    ensures not_tokens { Raises 0 2 (main_with 0 [] (5 ∷ [])) (main_with 0 (1 ∷ []) (7 ∷ [])) → ⊥ }
{}

/// Main has a token at the first leaf, and nobody one at the second: a token is present at that leaf and above it, and not
/// beside it.
pub fn tokens_that_are_present()
    ensures leaf { Present (above paid) paid.hands 1 }
    ensures root { Present (above paid) paid.hands 0 }
    ensures beside { Present (above paid) paid.hands 2 → ⊥ }
    ensures elsewhere { Present (above paid) paid.hands 5 → ⊥ }
{}

/// No event changes the shape of a core. The amounts of all hands in a slot's stripes are added.
pub fn shapes_and_amounts()
    ensures kept { (k : CoreState) (e : Event) → SameShape k (after k e) }
    ensures slots { SameShape (start 1 3) (start 2 3) → ⊥ }
    ensures nodes { SameShape (start 1 3) (start 1 7) → ⊥ }
    ensures both { slot_amounts paid 0 2 ≡ 15 }
    ensures first { slot_amounts paid 0 1 ≡ 6 }
    ensures second { slot_amounts paid 1 2 ≡ 300 }
    ensures none { slot_amounts paid 0 0 ≡ 0 }
{}
