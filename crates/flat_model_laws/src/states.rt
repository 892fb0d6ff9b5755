//! The laws of states: what commands keep, what the counts are, and what the limits permit.

ghost use Rattle.std.specs.Prelude.{
  ◌≡◌,
  ◌≢◌,
  ℕ,
  ◌+◌,
  ◌↔◌,
  true,
  false,
  [],
  Some,
  None,
  length,
  ltb,
  sum_by,
};
ghost use lib.Dec.{T};
ghost use Rattle.std.specs.Ordering.{nat_cmp};
ghost use Rattle.std.specs.FinMap.{find, get, is_sorted, len};
ghost use Rattle.flat_model.specs.Path.{Path, at_or_below, is_root, parent};
ghost use Rattle.flat_model.specs.State.{State, Attr, Limit, Unlimited, start, fresh};
ghost use Rattle.flat_model.specs.Counts.{
  asks,
  is_group,
  current,
  populated,
  members,
  descendant_count,
  children,
  IsInhabited,
};
ghost use Rattle.flat_model.specs.File.{LimitFile, Procs};
ghost use Rattle.flat_model.specs.Command.{
  Command,
  MakeGroup,
  Fork,
  Kill,
  Show,
  Refusal,
  NoSlot,
  Descendants,
  Depth,
  OverPidsMax,
  is_counted,
};
ghost use Rattle.flat_model.specs.Inverse.{lost};
ghost use Rattle.flat_model.specs.Step.{refusal, after, after_refusal, home_of, limit_at, with_limit};
ghost use Rattle.flat_model.specs.WellFormed.{WellFormed};
ghost use Rattle.flat_model.specs.EventTotals.{IsCounted};
ghost use Rattle.flat_model.specs.Limiting.{
  IsWithinPids,
  IsLimiting,
  HasRoomBelow,
  MeetsDescendants,
  MeetsDepth,
};

/// Every command keeps a state well formed. The root is a group; the parents of groups and the homes of processes are
/// groups. There are at most as many groups besides the root as slots. No total is below its local one, and no peak but the
/// root's is below its group's count.
pub fn well_formed_kept()
    ensures start { (slots : ℕ) → WellFormed slots start }
    ensures accepted { (slots : ℕ) (s : State) (c : Command) → WellFormed slots s
        → refusal slots s c ≡ None → WellFormed slots (after s c) }
    ensures refused { (slots : ℕ) (s : State) (c : Command) (r : Refusal) → WellFormed slots s
        → refusal slots s c ≡ Some r → WellFormed slots (after_refusal s r) }
{}

/// `pids.current` counts each process once: a group's own members, and what its children count. `populated` says whether
/// there is such a process. The descendants of a group are its children and theirs.
pub fn counts_are_exact()
    ensures whole { (slots : ℕ) (s : State) → WellFormed slots s → (g : Path)
        → current s g ≡ length (members s g) + sum_by (current s) (children s g) }
    ensures populated { (s : State) (g : Path) → (populated s g ≡ true) ↔ IsInhabited s g }
    ensures descendants { (slots : ℕ) (s : State) → WellFormed slots s → (g : Path)
        → descendant_count s g
        ≡ length (children s g) + sum_by (descendant_count s) (children s g) }
{}

/// At the start there is only the root, without limits, and process 1 in it. A new group has no limits, event totals of 0
/// and no peak, and changes nothing else.
pub fn new_groups_are_bare()
    ensures root { get start.groups []
        ≡ Some (record {
          limits = record { pids = Unlimited; descendants = Unlimited; depth = Unlimited };
          local = 0;
          total = 0;
          peak = 0;
        }) }
    ensures root_alone { (p : Path) → is_group start p ≡ true → p ≡ [] }
    ensures process { (pid : ℕ) (p : Path) → get start.home pid ≡ Some p ↔ (pid ≡ 1) × (p ≡ []) }
    ensures made { (s : State) (p : Path) → get (after s (MakeGroup p)).groups p
        ≡ Some (record {
          limits = record { pids = Unlimited; descendants = Unlimited; depth = Unlimited };
          local = 0;
          total = 0;
          peak = 0;
        }) }
    ensures fresh { (s : State) (p : Path) → get (after s (MakeGroup p)).groups p ≡ Some fresh }
    ensures others { (s : State) (p q : Path) → q ≢ p
        → get (after s (MakeGroup p)).groups q ≡ get s.groups q }
    ensures home { (s : State) (p : Path) → (after s (MakeGroup p)).home ≡ s.home }
{}

/// A fork that `pids.max` refuses raises the local total of the group that it names, and the total of that group and of each
/// above it other than the root. Nothing else changes. No other refusal changes anything.
pub fn events_are_exact()
    ensures counted { (s : State) (a p : Path) (x : Attr) → get s.groups p ≡ Some x → (y : Attr)
        × (get (after_refusal s (OverPidsMax a)).groups p ≡ Some y) × IsCounted a p x y }
    ensures absent { (s : State) (a p : Path) → get s.groups p ≡ None
        → get (after_refusal s (OverPidsMax a)).groups p ≡ None }
    ensures home { (s : State) (a : Path) → (after_refusal s (OverPidsMax a)).home ≡ s.home }
    ensures others { (s : State) (r : Refusal) → is_counted r ≡ false → after_refusal s r ≡ s }
{}

/// A limit that was set is that of its file, and no other limit, total or peak has changed.
pub fn one_limit_is_set()
    ensures set { (file : LimitFile) (l : Limit) (a : Attr) → limit_at file (with_limit file l a) ≡ l }
    ensures others { (file other : LimitFile) (l : Limit) (a : Attr) → other ≢ file
        → limit_at other (with_limit file l a) ≡ limit_at other a }
    ensures kept { (file : LimitFile) (a : Attr) → with_limit file (limit_at file a) a ≡ a }
    ensures last { (file : LimitFile) (l m : Limit) (a : Attr)
        → with_limit file m (with_limit file l a) ≡ with_limit file m a }
    ensures local { (file : LimitFile) (l : Limit) (a : Attr) → (with_limit file l a).local ≡ a.local }
    ensures total { (file : LimitFile) (l : Limit) (a : Attr) → (with_limit file l a).total ≡ a.total }
    ensures peak { (file : LimitFile) (l : Limit) (a : Attr) → (with_limit file l a).peak ≡ a.peak }
{}

/// A kill leaves no process in the group or below it, and all other processes where they are. What is lost are the processes
/// that were there, each once with its home, by ascending pids.
pub fn kill_is_whole()
    ensures nobody { (s : State) (g : Path) → populated (after s (Kill g)) g ≡ false }
    ensures others { (s : State) (g : Path) (pid : ℕ) (p : Path) → get s.home pid ≡ Some p
        → at_or_below p g ≡ false → get (after s (Kill g)).home pid ≡ Some p }
    ensures lost { (s : State) (g : Path) (pid : ℕ) (p : Path)
        → (find nat_cmp pid (lost s g) ≡ Some p)
        ↔ ((get s.home pid ≡ Some p) × (at_or_below p g ≡ true)) }
    ensures ascending { (s : State) (g : Path) → T (is_sorted nat_cmp (lost s g)) }
{}

/// A limit refuses exactly what would break it, and names its group: the nearest at or above the fork or the new group. At
/// one group the limit on descendants comes before that on depth.
pub fn limits_are_exact()
    ensures fork { (slots : ℕ) (s : State) (from child : ℕ)
        → refusal slots s (Fork from child) ≡ None
        → IsWithinPids (after s (Fork from child)) (home_of s from) }

    // Only a fork is refused by `pids.max`, and the named group is the nearest whose limit the fork would exceed.
    ensures fork_refused { (slots : ℕ) (s : State) (c : Command) (a : Path)
        → refusal slots s c ≡ Some (OverPidsMax a)
        → (from : ℕ) × (child : ℕ) × (c ≡ Fork from child) × IsLimiting s (home_of s from) a }
    ensures make { (slots : ℕ) (s : State) (p : Path) → refusal slots s (MakeGroup p) ≡ None
        → HasRoomBelow s (parent p) }
    ensures descendants { (slots : ℕ) (s : State) (p a : Path)
        → refusal slots s (MakeGroup p) ≡ Some (Descendants a) → MeetsDescendants s (parent p) a }
    ensures depth { (slots : ℕ) (s : State) (p a : Path)
        → refusal slots s (MakeGroup p) ≡ Some (Depth a) → MeetsDepth s (parent p) a }
{}

/// What a well-formed state guarantees. Each group above a group exists. Each process is in a group, which lists it. A group
/// is refused because no slot is free only if each slot has a group. No group counts more refused forks of its own than in
/// all. No group but the root counts more processes than its peak.
pub fn well_formed_is_closed()
    ensures groups { (slots : ℕ) (s : State) (p q : Path) → WellFormed slots s
        → is_group s p ≡ true → at_or_below p q ≡ true → is_group s q ≡ true }
    ensures homes { (slots : ℕ) (s : State) (pid : ℕ) → WellFormed slots s
        → refusal slots s (Show (home_of s pid) Procs) ≡ None }
    ensures slots { (slots : ℕ) (s : State) (p : Path) → WellFormed slots s
        → refusal slots s (MakeGroup p) ≡ Some NoSlot → len s.groups ≡ slots + 1 }
    ensures totals { (slots : ℕ) (s : State) (g : Path) → WellFormed slots s
        → asks (λ attr. ltb attr.total attr.local) (get s.groups g) ≡ false }
    ensures peaks { (slots : ℕ) (s : State) (g : Path) → WellFormed slots s → is_root g ≡ false
        → asks (λ attr. ltb attr.peak (current s g)) (get s.groups g) ≡ false }
    ensures root_peak { (slots : ℕ) (s : State) → WellFormed slots s
        → asks (λ attr. ltb 0 attr.peak) (get s.groups []) ≡ false }
{}
