//! The laws of peaks: what raises them, what keeps them, and that they are no lower than the
//! counts.

ghost use Rattle.std.specs.Prelude.{
  ◌≡◌,
  ◌-◌,
  ◌<◌,
  ◌≤◌,
  ℕ,
  List,
  [],
  Some,
  None,
  false,
  get_or,
  length,
  take,
};
ghost use Rattle.std.specs.FinMap.{get, insert};
ghost use Rattle.flat_model.specs.Path.{Path, is_root};
ghost use Rattle.flat_model.specs.State.{State, Attr, Limit};
ghost use Rattle.flat_model.specs.Counts.{current};
ghost use Rattle.flat_model.specs.File.{LimitFile};
ghost use Rattle.flat_model.specs.Command.{
  Command,
  Exit,
  Fork,
  Kill,
  Move,
  RemoveGroup,
  SetLimit,
  Refusal,
};
ghost use Rattle.flat_model.specs.Step.{
  after,
  after_refusal,
  attr_of,
  home_of,
  peaks_upward,
  set_peaks,
};
ghost use Rattle.flat_model.specs.Machine.{after_all};
ghost use Rattle.flat_model.specs.RaisedPeaks.{IsRaised};

/// A fork raises the peaks of the child's group and of those above it other than the root to their
/// counts, if they are lower. A move does so for the new group. Nothing else of a group changes,
/// and no group is made.
pub fn peaks_are_raised()
    ensures fork { (s : State) (from child : ℕ) (p : Path) (x : Attr) → get s.groups p ≡ Some x
        → (y : Attr) × (get (after s (Fork from child)).groups p ≡ Some y)
        × IsRaised (home_of s from) p (current (after s (Fork from child)) p) x y }
    ensures fork_absent { (s : State) (from child : ℕ) (p : Path) → get s.groups p ≡ None
        → get (after s (Fork from child)).groups p ≡ None }
    ensures fork_home { (s : State) (from child : ℕ) → (after s (Fork from child)).home
        ≡ insert s.home child (home_of s from) }
    ensures moved { (s : State) (a : Path) (pid : ℕ) (p : Path) (x : Attr)
        → get s.groups p ≡ Some x → (y : Attr) × (get (after s (Move a pid)).groups p ≡ Some y)
        × IsRaised a p (current (after s (Move a pid)) p) x y }
    ensures moved_absent { (s : State) (a : Path) (pid : ℕ) (p : Path) → get s.groups p ≡ None
        → get (after s (Move a pid)).groups p ≡ None }
    ensures moved_home { (s : State) (a : Path) (pid : ℕ)
        → (after s (Move a pid)).home ≡ insert s.home pid a }
{}

/// No other command changes a peak: neither an exit nor a kill, which lower counts, nor a refused
/// fork.
pub fn peaks_are_kept()
    ensures exit { (s : State) (pid : ℕ) → (after s (Exit pid)).groups ≡ s.groups }
    ensures kill { (s : State) (g : Path) → (after s (Kill g)).groups ≡ s.groups }
    ensures limit { (s : State) (g : Path) (file : LimitFile) (value : Limit) (p : Path) (x y : Attr)
        → get s.groups p ≡ Some x → get (after s (SetLimit g file value)).groups p ≡ Some y
        → y.peak ≡ x.peak }
    ensures removed { (s : State) (g p : Path) (y : Attr)
        → get (after s (RemoveGroup g)).groups p ≡ Some y → get s.groups p ≡ Some y }
    ensures refused { (s : State) (r : Refusal) (p : Path) (x y : Attr) → get s.groups p ≡ Some x
        → get (after_refusal s r).groups p ≡ Some y → y.peak ≡ x.peak }
{}

/// In each state that commands reach, the peak of a group other than the root is no lower than its
/// `pids.current`, and the root has no peak.
pub fn peaks_hold_the_counts()
    ensures reached { (slots : ℕ) (cs : List Command) (p : Path) (x : Attr)
        → get (after_all slots cs).state.groups p ≡ Some x → is_root p ≡ false
        → current (after_all slots cs).state p ≤ x.peak }
    ensures root { (slots : ℕ) (cs : List Command) (x : Attr)
        → get (after_all slots cs).state.groups [] ≡ Some x → x.peak ≡ 0 }
{}

/// The peaks along a path are those of the groups from its own group upward, one for each of its
/// names. Setting them along the path changes nothing.
pub fn peaks_along_a_path()
    ensures many { (s : State) (p : Path) → length (peaks_upward s p) ≡ length p }
    ensures each { (s : State) (p : Path) (i other : ℕ) → i < length p
        → get_or (peaks_upward s p) i other ≡ (attr_of s (take (length p - i) p)).peak }
    ensures set { (s : State) (p : Path) → set_peaks p (peaks_upward s p) s ≡ s }
{}
