//! The exact laws of refusals: which commands are accepted, what a limit permits and refuses, and
//! what is counted of a refusal.

ghost use Rattle.std.specs.Prelude.{◌≡◌, ◌≢◌, ℕ, ◌≤◌, ◌↔◌, true, false, [], Some, None};
ghost use Rattle.std.specs.FinMap.{get, len};
ghost use Rattle.flat_model.specs.Path.{Path, at_or_below, strictly_below, is_root, parent};
ghost use Rattle.flat_model.specs.State.{State, Attr, Limit};
ghost use Rattle.flat_model.specs.Counts.{
  current,
  exceeds,
  asks,
  is_group,
  has_process,
  blocked_fork,
};
ghost use Rattle.flat_model.specs.File.{File, LimitFile, is_pids_max, readable, on_root};
ghost use Rattle.flat_model.specs.Command.{
  MakeGroup,
  RemoveGroup,
  Fork,
  Exit,
  Move,
  SetLimit,
  Kill,
  Show,
  Locate,
  Descendants,
  Depth,
};
ghost use Rattle.flat_model.specs.Step.{refusal, after, home_of, limit_met, blocked_make, count_up};
ghost use Rattle.flat_model.specs.EventTotals.{IsCounted};
ghost use Rattle.flat_model.specs.Limiting.{
  IsWithinPids,
  IsLimiting,
  HasRoomFor,
  HasRoomBelow,
  MeetsDescendants,
  MeetsDepth,
};

/// `pids.max` refuses a fork exactly if the fork would bring a group past its limit, and names the
/// one group that limits it.
pub fn pids_limits_are_exact()
    // No group at or above g other than the root has more processes than its limit.
    ensures within { (s : State) (g : Path) → IsWithinPids s g ↔ ((a : Path)
        → at_or_below g a ≡ true → is_root a ≡ false
        → asks (λ attr. exceeds (current s a) attr.limits.pids) (get s.groups a) ≡ false) }
    ensures accepted { (slots : ℕ) (s : State) (from child : ℕ) → has_process s from ≡ true
        → has_process s child ≡ false → (refusal slots s (Fork from child) ≡ None)
        ↔ IsWithinPids (after s (Fork from child)) (home_of s from) }
    ensures limiting { (s : State) (g a : Path) → IsLimiting s g a ↔ (blocked_fork s g ≡ Some a) }
    ensures one { (s : State) (g a b : Path) → IsLimiting s g a → IsLimiting s g b → a ≡ b }
{}

/// A limit of the hierarchy refuses a new group exactly if a group above has no room for it. The
/// refusal names the one group and the one limit.
pub fn hierarchy_limits_are_exact()
    ensures room { (s : State) (q a : Path) → HasRoomFor s q a ↔ (limit_met s q a ≡ None) }
    ensures free { (s : State) (p : Path)
        → HasRoomBelow s (parent p) ↔ (blocked_make s p ≡ None) }
    ensures descendants { (s : State) (p a : Path)
        → MeetsDescendants s (parent p) a ↔ (blocked_make s p ≡ Some (Descendants a)) }
    ensures depth { (s : State) (p a : Path)
        → MeetsDepth s (parent p) a ↔ (blocked_make s p ≡ Some (Depth a)) }
{}

/// The attributes after a counted fork are those that the step computes, and no others.
pub fn events_are_counted_exactly()
    ensures { (a p : Path) (x y : Attr) → IsCounted a p x y ↔ (y ≡ count_up a p x) }
{}

/// A command on a group is accepted exactly if its conditions hold.
pub fn group_commands_are_accepted()
    ensures made { (slots : ℕ) (s : State) (p : Path) → (refusal slots s (MakeGroup p) ≡ None)
        ↔ ((is_group s p ≡ false) × (is_group s (parent p) ≡ true) × HasRoomBelow s (parent p)
        × (len s.groups ≤ slots)) }
    ensures removed { (slots : ℕ) (s : State) (p : Path) → (refusal slots s (RemoveGroup p) ≡ None)
        ↔ ((p ≢ []) × (is_group s p ≡ true)
        × ((q : Path) → is_group s q ≡ true → strictly_below q p ≡ false)
        × ((pid : ℕ) → get s.home pid ≢ Some p)) }
    ensures limited { (slots : ℕ) (s : State) (p : Path) (file : LimitFile) (value : Limit)
        → (refusal slots s (SetLimit p file value) ≡ None)
        ↔ ((is_group s p ≡ true) × (p ≡ [] → is_pids_max file ≡ false)) }
    ensures killed { (slots : ℕ) (s : State) (p : Path) → (refusal slots s (Kill p) ≡ None)
        ↔ ((p ≢ []) × (is_group s p ≡ true)) }
    ensures shown { (slots : ℕ) (s : State) (p : Path) (file : File)
        → (refusal slots s (Show p file) ≡ None)
        ↔ ((readable file ≡ true) × (is_group s p ≡ true) × (p ≡ [] → on_root file ≡ true)) }
{}

/// A command on a process is accepted exactly if its conditions hold.
pub fn process_commands_are_accepted()
    ensures forked { (slots : ℕ) (s : State) (from child : ℕ)
        → (refusal slots s (Fork from child) ≡ None)
        ↔ ((has_process s from ≡ true) × (has_process s child ≡ false)
        × IsWithinPids (after s (Fork from child)) (home_of s from)) }
    ensures exited { (slots : ℕ) (s : State) (pid : ℕ)
        → (refusal slots s (Exit pid) ≡ None) ↔ (has_process s pid ≡ true) }
    ensures moved { (slots : ℕ) (s : State) (p : Path) (pid : ℕ)
        → (refusal slots s (Move p pid) ≡ None)
        ↔ ((is_group s p ≡ true) × (has_process s pid ≡ true)) }
    ensures located { (slots : ℕ) (s : State) (pid : ℕ)
        → (refusal slots s (Locate pid) ≡ None) ↔ (has_process s pid ≡ true) }
{}
