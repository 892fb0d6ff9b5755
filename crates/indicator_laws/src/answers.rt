//! The laws of results: what each result of a step means, and which refusal an event meets first.
ghost use Rattle.std.specs.Prelude.{◌≡◌, ◌≢◌, ℕ, ◌+◌, ◌*◌, ◌/◌, ◌%◌, ◌^◌, ◌<◌, ◌≤◌, ◌↔◌, ◌⊎◌, List, [], ◌∷◌, Some, None, true, length};
ghost use denote.Bor.{Bor};
ghost use Rattle.snzi_core.specs.declared.event.Event.{Event};
ghost use Rattle.snzi_core.specs.declared.event.Event.TheVariants.{Load, FastAdd, RootAdd, ChildAdd, Leave, StripeAdd, Split, Join};
ghost use Rattle.snzi_tokens.specs.declared.token.Token.{Token};
ghost use Rattle.snzi_core.specs.declared.holding.Holding.{Holding};
ghost use Rattle.snzi_core.specs.declared.holding.Role.TheVariants.{Main, Helper, Spent};
ghost use Rattle.snzi_core.specs.declared.unlawful.Unlawful.{Unlawful};
ghost use Rattle.snzi_core.specs.declared.unlawful.Unlawful.TheVariants.{NoHand, NoToken, Cap, StillHolding, OutOfMemory, NoNode, ZeroNode};
ghost use Rattle.snzi_core.specs.CoreState.{CoreState, IsRuled, hand_of, start};
ghost use Rattle.snzi_core.specs.Holding.{put, added, merged, without, wrapped, held, gain, lose, raise, empty, main_weight, helper_weight, out, keeper, helper_with, rejoined};
ghost use Rattle.snzi_core.specs.Kept.{HasTables, IsCore};
ghost use Rattle.snzi_core.specs.Lawful.{refusal, refuses_split};
ghost use Rattle.snzi_core.specs.Effect.{Refuses, Runs, Stops, after, is_split};
ghost use Rattle.indicator_laws.specs.Cores.{core, at, token, full, crowded, filled, roomy, main_with};

/// A result means one thing only. The refusal that an event meets is returned, and no other. If it
/// meets none, only out of memory may be returned, and only for a split, which alone makes a hand.
pub fn refusals_are_told_apart()
    ensures told { (k : CoreState) (e : Event) (u : Unlawful) → refusal k e ≡ Some u → Refuses u k e }
    ensures one { (k : CoreState) (e : Event) (u v : Unlawful) → Refuses u k e → Refuses v k e → u ≡ v }
    ensures lawful { (k : CoreState) (e : Event) (u : Unlawful) → refusal k e ≡ None → Refuses u k e
        → (u ≡ OutOfMemory) × (is_split e ≡ true) }
    ensures memory { (k : CoreState) (e : Event) → refusal k e ≡ None → is_split e ≡ true
        → Refuses OutOfMemory k e }
    ensures never { (k : CoreState) (e : Event) → refusal k e ≢ Some OutOfMemory }
    ensures makes { (k : CoreState) (e : Event)
        → is_split e ≡ true ↔ length (after k e).hands ≡ length k.hands + 1 }
{}

/// An event that is wrong in several ways is refused for the first in this order: no node, no hand,
/// a node that is zero, no token, a cap, a helper that still has a token at a node that is not a
/// leaf. Each test is tight: with a number one less, or one more, the event is lawful.
pub fn refusals_come_in_order()
    ensures node { (refusal crowded (Load 9 0 5) ≡ Some NoNode)
        × (refusal crowded (Load 9 1 0) ≡ Some NoNode)
        × (refusal crowded (FastAdd 9 (at 0 3)) ≡ Some NoNode)
        × (refusal crowded (FastAdd 9 (at 1 0)) ≡ Some NoNode)
        × (refusal crowded (RootAdd 9 1) ≡ Some NoNode)
        × (refusal crowded (ChildAdd 9 (at 0 3)) ≡ Some NoNode)
        × (refusal crowded (ChildAdd 9 (at 1 1)) ≡ Some NoNode)
        × (refusal crowded (ChildAdd 0 (at 0 0)) ≡ Some NoNode)
        × (refusal crowded (Leave 9 (at 0 3)) ≡ Some NoNode)
        × (refusal crowded (Leave 9 (at 1 0)) ≡ Some NoNode) }
    ensures stripe { (n : ℕ) → (refusal crowded (StripeAdd 9 0 2 n) ≡ Some NoNode)
        × (refusal crowded (StripeAdd 9 1 0 n) ≡ Some NoNode)
        × (refusal crowded (StripeAdd 9 0 1 n) ≡ Some NoHand)
        × (refusal crowded (StripeAdd 1 0 1 n) ≡ None) }
    ensures hand { (refusal crowded (Load 9 0 4) ≡ Some NoHand)
        × (refusal crowded (FastAdd 9 (at 0 2)) ≡ Some NoHand)
        × (refusal crowded (RootAdd 9 0) ≡ Some NoHand)
        × (refusal crowded (ChildAdd 9 (at 0 2)) ≡ Some NoHand)
        × (refusal crowded (Leave 9 (at 0 2)) ≡ Some NoHand)
        × (refusal crowded (Join 9) ≡ Some NoHand)
        × (refusal crowded (Join 0) ≡ Some NoHand) }
    ensures zero { refusal crowded (FastAdd 0 (at 0 1)) ≡ Some ZeroNode }
    ensures token { (refusal (core (1 ∷ 1 ∷ 1 ∷ 0 ∷ 0 ∷ []) 1 (0 ∷ full ∷ full ∷ 0 ∷ 0 ∷ []) []) (ChildAdd 0 (at 0 2)) ≡ Some NoToken)
        × (refusal (core (1 ∷ 1 ∷ 1 ∷ 0 ∷ 0 ∷ []) 1 [] (full ∷ full ∷ 0 ∷ 0 ∷ 0 ∷ [])) (Leave 1 (at 0 2)) ≡ Some NoToken) }
    ensures cap { (refusal filled (FastAdd 0 (at 0 2)) ≡ Some Cap)
        × (refusal filled (RootAdd 0 0) ≡ Some Cap)
        × (refusal filled (ChildAdd 0 (at 0 2)) ≡ Some Cap)
        × (refusal filled (Leave 0 (at 0 2)) ≡ Some Cap)
        × (refusal filled (Join 1) ≡ Some Cap) }
    ensures holding { refusal (core (1 ∷ 0 ∷ 0 ∷ 0 ∷ 0 ∷ []) 1 [] (1 ∷ 0 ∷ 0 ∷ 0 ∷ 0 ∷ [])) (Join 1) ≡ Some StillHolding }
    ensures lawful { (refusal crowded (Load 0 0 4) ≡ None)
        × (refusal roomy (FastAdd 0 (at 0 2)) ≡ None)
        × (refusal roomy (RootAdd 0 0) ≡ None)
        × (refusal roomy (ChildAdd 0 (at 0 2)) ≡ None)
        × (refusal roomy (Leave 0 (at 0 2)) ≡ None)
        × (refusal filled (Leave 0 (at 0 0)) ≡ None)
        × (refusal (core (1 ∷ 2 ∷ 2 ∷ 0 ∷ 0 ∷ []) 1 (full ∷ full ∷ full ∷ 0 ∷ 0 ∷ []) []) (Leave 0 (at 0 2)) ≡ None)
        × (refusal roomy (Join 1) ≡ None) }
{}

/// A split is refused for a token outside the shape, then for one that main lacks, then if 65,535
/// helpers are out or 2^32 - 1 hands were made.
pub fn splits_are_refused_in_order()
    ensures share { (k : CoreState) (share : Bor (List Token))
        → refusal k (Split share) ≡ refuses_split k share.now }
    ensures node { (refuses_split crowded (token 0 0 ∷ token 0 2 ∷ []) ≡ Some NoNode)
        × (refuses_split crowded (token 1 0 ∷ []) ≡ Some NoNode) }
    ensures token { (one_each : CoreState) → one_each ≡ core (2 ∷ 1 ∷ 1 ∷ 0 ∷ 0 ∷ []) 65535 (0 ∷ 1 ∷ 1 ∷ 0 ∷ 0 ∷ []) []
        → (refuses_split one_each (token 0 1 ∷ token 0 0 ∷ token 0 1 ∷ []) ≡ Some NoToken)
        × (refuses_split one_each (token 0 1 ∷ token 0 0 ∷ []) ≡ Some Cap) }
    ensures helpers { (refuses_split crowded [] ≡ Some Cap) × (refuses_split roomy (token 0 1 ∷ token 0 0 ∷ []) ≡ None) }
    ensures hands { (k : CoreState) → length k.hands ≡ 4294967295 → refuses_split k [] ≡ Some Cap }
    ensures room { (k : CoreState) → length k.hands ≡ 4294967294 → out (hand_of k 0).role ≡ 65534 → refuses_split k [] ≡ None }
{}

/// A list of events leads to one core. If it stops at an index, the core and the refusal are
/// unique. A list whose events are all lawful stops only when out of memory.
pub fn lists_are_told_apart()
    ensures runs { (k a b : CoreState) (es : List Event) → Runs k es a → Runs k es b → a ≡ b }
    ensures stops { (k a b : CoreState) (es : List Event) (i : ℕ) (u v : Unlawful) → Stops k es i u a
        → Stops k es i v b → (u ≡ v) × (a ≡ b) }
    ensures lawful { (k a b : CoreState) (es : List Event) (i : ℕ) (u : Unlawful) → Runs k es b
        → Stops k es i u a → u ≡ OutOfMemory }
    ensures first { (k a b : CoreState) (es : List Event) (i j : ℕ) (u v : Unlawful) → Stops k es i u a
        → Stops k es j v b → i < j → u ≡ OutOfMemory }
    ensures inside { (k a : CoreState) (es : List Event) (i : ℕ) (u : Unlawful) → Stops k es i u a
        → i < length es }
{}

/// How lists by the number of a word change, with numbers.
pub fn lists_by_word_change()
    ensures put { (put [] 2 7 ≡ 0 ∷ 0 ∷ 7 ∷ []) × (put (1 ∷ 2 ∷ 3 ∷ []) 1 7 ≡ 1 ∷ 7 ∷ 3 ∷ []) }
    ensures added { (added [] ≡ 0) × (added (1 ∷ 20 ∷ 300 ∷ []) ≡ 321) }
    ensures merged { (merged (1 ∷ 2 ∷ []) (10 ∷ 20 ∷ 30 ∷ []) ≡ 11 ∷ 22 ∷ 30 ∷ [])
        × (merged (1 ∷ 2 ∷ 3 ∷ []) (10 ∷ []) ≡ 11 ∷ 2 ∷ 3 ∷ []) }
    ensures without { (without (5 ∷ 5 ∷ 5 ∷ []) (1 ∷ 2 ∷ []) ≡ 4 ∷ 3 ∷ 5 ∷ []) × (without [] (1 ∷ []) ≡ []) }
    ensures wrapped { wrapped (18446744073709551615 ∷ 18446744073709551616 ∷ 18446744073709551619 ∷ [])
        ≡ 18446744073709551615 ∷ 0 ∷ 3 ∷ [] }
{}

/// How each change affects a hand, with numbers: main with two helpers out, three words, and what
/// it has at each.
pub fn hands_change()
    ensures gains { gain (main_with 2 (4 ∷ 0 ∷ 6 ∷ []) (0 ∷ 9 ∷ 0 ∷ [])) 2 ≡ main_with 2 (4 ∷ 0 ∷ 7 ∷ []) (0 ∷ 9 ∷ 0 ∷ []) }
    ensures loses { lose (main_with 2 (4 ∷ 0 ∷ 6 ∷ []) (0 ∷ 9 ∷ 0 ∷ [])) 0 ≡ main_with 2 (3 ∷ 0 ∷ 6 ∷ []) (0 ∷ 9 ∷ 0 ∷ []) }
    ensures raises { raise (main_with 2 (4 ∷ 0 ∷ 6 ∷ []) (0 ∷ 9 ∷ 0 ∷ [])) 1 18446744073709551610
        ≡ main_with 2 (4 ∷ 0 ∷ 6 ∷ []) (0 ∷ 3 ∷ 0 ∷ []) }
    ensures keeps { keeper (main_with 2 (4 ∷ 0 ∷ 6 ∷ []) (0 ∷ 9 ∷ 0 ∷ [])) (1 ∷ 0 ∷ 6 ∷ [])
        ≡ main_with 3 (3 ∷ 0 ∷ 0 ∷ []) (0 ∷ 9 ∷ 0 ∷ []) }
    ensures rejoins { rejoined (main_with 2 (4 ∷ 0 ∷ 6 ∷ []) (0 ∷ 9 ∷ 0 ∷ [])) (helper_with (1 ∷ 0 ∷ 2 ∷ []) (0 ∷ 18446744073709551610 ∷ 0 ∷ []))
        ≡ main_with 1 (5 ∷ 0 ∷ 8 ∷ []) (0 ∷ 3 ∷ 0 ∷ []) }
    ensures helper { ((helper_with (1 ∷ []) []).role ≡ Helper) × (held (helper_with (1 ∷ 2 ∷ []) (5 ∷ [])) ≡ 3) }
    ensures roles { (n : ℕ) → (main_weight (Main n) ≡ 1) × (main_weight Helper ≡ 0) × (main_weight Spent ≡ 0)
        × (helper_weight (Main n) ≡ 0) × (helper_weight Helper ≡ 1) × (helper_weight Spent ≡ 0)
        × (out (Main n) ≡ n) × (out Helper ≡ 0) × (out Spent ≡ 0) }
{}

/// A core has an odd number of nodes in a slot, and words and tables to match; hand 0 is main.
pub fn cores_are_exact()
    ensures words { (k : CoreState) → IsCore k → length k.words ≡ k.slots * (k.nodes + (k.nodes + 1) / 2) }
    ensures odd { (k : CoreState) → IsCore k → (k.nodes % 2 ≡ 1) × (length k.hands < 2 ^ 32) }
    ensures main { (k : CoreState) → IsCore k → (n : ℕ) × ((hand_of k 0).role ≡ Main n) × (n ≤ 65535) }
    ensures rule { (k : CoreState) → IsCore k → IsRuled k }
    ensures tables { (n : ℕ) (h : Holding) → HasTables n h → h.role ≢ Spent → (length h.tokens ≡ n) × (length h.amounts ≡ n) }
    ensures spent { (n : ℕ) → HasTables n (empty Spent) }
    ensures start { (slots nodes : ℕ) → (nodes ≡ 1) ⊎ (nodes ≡ 3) ⊎ (nodes ≡ 7) ⊎ (nodes ≡ 15) → IsCore (start slots nodes) }
{}
