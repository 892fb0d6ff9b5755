//! The laws of steps: each step on a board is one event of the core that the board represents.
ghost use Rattle.std.specs.Prelude.{◌≡◌, ℕ, ◌+◌, ◌-◌, ◌*◌, ◌%◌, ◌^◌, ◌<◌, ◌≤◌, ◌==◌, List, [], slice_index, length, Some, None};
ghost use denote.Bor.{Bor};
ghost use mathlib.Core.Option.{none};
ghost use prog.Atomic.{either};
ghost use Rattle.atomic_table.specs.Table.{step};
ghost use Rattle.snzi_core.specs.declared.holding.Role.TheVariants.{Helper};
ghost use Rattle.snzi_core.specs.declared.event.Event.{Event};
ghost use Rattle.snzi_core.specs.declared.event.Event.TheVariants.{RootAdd, ChildAdd, Leave, StripeAdd};
ghost use Rattle.snzi_tokens.specs.declared.token.Token.{Token};
ghost use Rattle.snzi_core.specs.declared.unlawful.Unlawful.{Unlawful};
ghost use Rattle.snzi_core.specs.declared.unlawful.Unlawful.TheVariants.{Cap};
ghost use Rattle.snzi_core.specs.Caps.{token_cap, helper_cap};
ghost use Rattle.snzi_core.specs.declared.holding.Holding.{Holding};
ghost use Rattle.snzi_core.specs.Holding.{tokens_at, amount_at, held, main_weight, out};
ghost use Rattle.snzi_core.specs.CoreState.{CoreState as Core};
ghost use Rattle.snzi_core.specs.Lawful.{refusal};
ghost use Rattle.snzi_core.specs.Effect.{after, Runs};
ghost use Rattle.snzi_tree.specs.declared.board.View.{View};
ghost use Rattle.snzi_tree.specs.Contents.{AllInRange, count_at, AtLeaves};
ghost use Rattle.snzi_tree.specs.Ended.{HasEnded};
ghost use Rattle.snzi_tree.specs.BoardEvents.{IsLawful, Comes, IsEventOf, IsSplitOf, IsJoinOf, Alike, slot_at, place_at, node_at, load_at, exchange_at};
ghost use Rattle.snzi_tree.specs.Hands.{IsNodeWord, IsStripeWord, above, IsRootWord};
ghost use Rattle.snzi_tree.specs.Tell.{looked, queried, summed, root_added, child_added, fast_added, left, added_on, staged, unstaged};
ghost use Rattle.snzi_tree.specs.View.{BoardRule, Knows, IsBoard, Acts, first_view, kept, given, joined, spent_view};
ghost use Rattle.indicator_laws.specs.Boards.{new_board, twice};

/// Each step on a word is one event of the core, lawful there: it leads from the core that the board represents before the
/// step to the one after it. A load is an event that changes nothing, even if it puts a token into a share; so is an
/// exchange that finds another number.
pub fn steps_are_events()
    ensures looked { (g w l slots id j : ℕ) (me : Knows) → IsBoard g w l → Acts me.0 → j < g * (w + l)
        → IsEventOf g w l id me j (λ x. x) (looked (step slots j 0 0 none) me) (λ x. load_at w l id j) }
    ensures queried { (g w l slots id j : ℕ) (me : Knows) → IsBoard g w l → Acts me.0 → j < g * (w + l)
        → IsEventOf g w l id me j (λ x. x) (queried w (w + l) (step slots j 0 0 none) me) (λ x. load_at w l id j) }
    ensures summed { (g w l slots id j : ℕ) (me : Knows) → IsBoard g w l → Acts me.0 → j < g * (w + l)
        → IsEventOf g w l id me j (λ x. x) (summed (step slots j 0 0 none) me) (λ x. load_at w l id j) }
    ensures staged { (g w l slots id j : ℕ) (me : Knows) → IsBoard g w l → Acts me.0 → j < g * (w + l)
        → IsEventOf g w l id me j (λ x. x) (staged (step slots j 0 0 none) me) (λ x. load_at w l id j) }
    ensures unstaged { (g w l slots id j : ℕ) (me : Knows) → IsBoard g w l → Acts me.0 → j < g * (w + l)
        → IsEventOf g w l id me j (λ x. x) (unstaged (step slots j 0 0 none) me) (λ x. load_at w l id j) }
    ensures root_added { (g w l slots id j : ℕ) (me : Knows) → IsBoard g w l → Acts me.0 → j < g * (w + l)
        → IsNodeWord w l j → IsRootWord w l j → held me.0.holding < token_cap
        → IsEventOf g w l id me j (λ x. (x + 1) % 2 ^ 64) (root_added (step slots j 1 0 none) me) (λ x. RootAdd id (slot_at w l j)) }
    ensures child_added { (g w l slots id j : ℕ) (me : Knows) → IsBoard g w l → Acts me.0 → j < g * (w + l)
        → IsNodeWord w l j → ¬ (IsRootWord w l j) → 0 < tokens_at (above w l j) me.0.holding → held me.0.holding < token_cap
        → IsEventOf g w l id me j (λ x. (x + 1) % 2 ^ 64) (child_added w (w + l) (step slots j 1 0 none) me) (λ x. ChildAdd id (node_at w l j)) }
    ensures fast_added { (g w l slots id j old : ℕ) (me : Knows) → IsBoard g w l → Acts me.0 → j < g * (w + l)
        → IsNodeWord w l j → 0 < old → held me.0.holding < token_cap
        → IsEventOf g w l id me j (λ x. either (x == old) (old + 1) x) (fast_added (step slots j old (old + 1) none) me) (exchange_at w l id j old) }
    ensures left { (g w l slots id j : ℕ) (me : Knows) → IsBoard g w l → Acts me.0 → j < g * (w + l)
        → IsNodeWord w l j → 0 < tokens_at j me.0.holding → held me.0.holding ≤ token_cap
        → IsEventOf g w l id me j (λ x. (x + (2 ^ 64 - 1)) % 2 ^ 64) (left w (w + l) (step slots j 1 0 none) me) (λ x. Leave id (node_at w l j)) }
    ensures added_on { (g w l slots id j n : ℕ) (me : Knows) → IsBoard g w l → Acts me.0 → j < g * (w + l)
        → IsStripeWord w l j
        → IsEventOf g w l id me j (λ x. (x + n) % 2 ^ 64) (added_on (step slots j n 0 none) me) (λ x. StripeAdd id (slot_at w l j) (place_at w l j - w) n) }
    ensures split { (g w l id : ℕ) (v : View) (share : Bor (List Token)) → IsBoard g w l
        → main_weight v.holding.role ≡ 1 → out v.holding.role < helper_cap → AllInRange g l share.now
        → ((i : ℕ) → slice_index v.plan i ≡ count_at w l i share.now) → ((i : ℕ) → slice_index v.plan i ≤ tokens_at i v.holding)
        → IsSplitOf g w l id v (kept v) (given v) share }
    ensures join { (g w l id other : ℕ) (v u : View) → IsBoard g w l
        → main_weight v.holding.role ≡ 1 → u.holding.role ≡ Helper → held v.holding + held u.holding ≤ token_cap → AtLeaves w l u.holding
        → IsJoinOf g w l id v other u (joined v u) spent_view }
{}

/// Two adds at once are not an event: no event makes a node two more and gives two tokens for it.
pub fn two_adds_are_no_event()
    ensures board { BoardRule (1 * (1 + 1)) 1 1 new_board }
    ensures none { (event : ℕ → Event) → ¬ (IsEventOf 1 1 1 0 (first_view, []) 0 (λ x. (x + 2) % 2 ^ 64) twice event) }
{}

/// Cores whose hands hold the same refuse the same events for the same causes, and stay alike.
pub fn alike_cores_go_on_alike()
    ensures { (k k' : Core) (e : Event) → Alike k k' → (refusal k e ≡ refusal k' e) × Alike (after k e) (after k' e) }
{}

/// A lawful event is one that the core does not refuse, as long as it has a number for the hand of a split. Without one it
/// refuses the split for its cap. So the core does every run to fewer than 2^32 hands.
pub fn lawful_events_are_done()
    ensures some { (k : Core) (e : Event) → refusal k e ≡ None → IsLawful k e }
    ensures done { (k : Core) (e : Event) → IsLawful k e → length k.hands < 2 ^ 32 - 1 → refusal k e ≡ None }
    ensures refused { (k : Core) (e : Event) (u : Unlawful) → IsLawful k e → refusal k e ≡ Some u → (u ≡ Cap) × (2 ^ 32 - 1 ≤ length k.hands) }
    ensures run { (k k' : Core) (events : List Event) → Comes k events k' → length k'.hands < 2 ^ 32 → Runs k events k' }
    ensures one { (k a b : Core) (events : List Event) → Comes k events a → Comes k events b → a ≡ b }
{}

/// A board with no steps holds nothing: main has no token and no amount.
pub fn no_step_brings_nothing()
    ensures { (g w l : ℕ) (h : Holding) → HasEnded g w l 0 h → (i : ℕ) → (tokens_at i h ≡ 0) × (amount_at i h ≡ 0) }
{}
