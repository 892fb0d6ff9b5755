//! The laws of the machine: a command and its undo, a run and its undos, and what holds for every machine that commands
//! reach.

ghost use Rattle.std.specs.Prelude.{
  ◌≡◌,
  ℕ,
  ◌-◌,
  ◌+◌,
  ◌<◌,
  ◌≤◌,
  ◌||◌,
  ◌↔◌,
  true,
  false,
  Some,
  None,
  List,
  length,
  ltb,
  take,
  map,
  sum_by,
};
ghost use Rattle.std.specs.FinMap.{get};
ghost use Rattle.flat_model.specs.Path.{Path};
ghost use Rattle.flat_model.specs.State.{State};
ghost use Rattle.flat_model.specs.Counts.{
  asks,
  current,
  populated,
  members,
  descendant_count,
  children,
  IsInhabited,
};
ghost use Rattle.flat_model.specs.Command.{Command, Undo, OverPidsMax, Undone, changes};
ghost use Rattle.flat_model.specs.Step.{refusal};
ghost use Rattle.flat_model.specs.Machine.{
  Machine,
  new_machine,
  tick,
  replies,
  end_of,
  after_all,
  undos,
  TakesBackItsOwn,
};
ghost use Rattle.flat_model.specs.WellFormed.{WellFormed, MachineWellFormed};
ghost use Rattle.flat_model.specs.EventTotals.{HasEventsUpTo, EventsBounded};

/// A recorded command and then its undo restore the machine, from any machine. The command is one that was accepted, or a
/// fork that `pids.max` refused.
pub fn one_undone()
    ensures accepted { (slots : ℕ) (m : Machine) (c : Command) → refusal slots m.state c ≡ None
        → changes c ≡ true → tick slots (tick slots m c).0 Undo ≡ (m, Undone c) }
    ensures counted { (slots : ℕ) (m : Machine) (c : Command) (a : Path)
        → refusal slots m.state c ≡ Some (OverPidsMax a)
        → tick slots (tick slots m c).0 Undo ≡ (m, Undone c) }
{}

/// A run and then as many undos as it left records restore the state and the past from before the run. The run may contain
/// undos that undo only its own records. Undoing everything restores the start.
pub fn run_undone()
    ensures run { (slots : ℕ) (m : Machine) (cs : List Command)
        → TakesBackItsOwn slots (length m.past) m cs
        → end_of slots (end_of slots m cs) (undos (length (end_of slots m cs).past - length m.past))
        ≡ m }
    ensures all { (slots : ℕ) (cs : List Command)
        → end_of slots (after_all slots cs) (undos (length (after_all slots cs).past))
        ≡ new_machine }
    ensures answers { (slots : ℕ) (m : Machine)
        → replies slots m (undos (length m.past)) ≡ map (λ e. Undone e.0) m.past }
{}

/// In every state that commands, including undo, reach: the state is well formed, and so is each state that an undo can
/// restore. Each group's count is its own members plus what its children count. `populated` says whether there is such a
/// process. A group's descendants are its children and theirs.
pub fn reachable_is_exact()
    ensures kept { (slots : ℕ) (m : Machine) (c : Command) → MachineWellFormed slots m
        → MachineWellFormed slots (tick slots m c).0 }
    ensures well_formed { (slots : ℕ) (cs : List Command)
        → MachineWellFormed slots (after_all slots cs) }
    ensures current { (slots : ℕ) (cs : List Command) (g : Path)
        → let s = (after_all slots cs).state in current s g
        ≡ length (members s g) + sum_by (current s) (children s g) }
    ensures populated { (slots : ℕ) (cs : List Command) (g : Path)
        → let s = (after_all slots cs).state in (populated s g ≡ true) ↔ IsInhabited s g }
    ensures descendants { (slots : ℕ) (cs : List Command) (g : Path)
        → let s = (after_all slots cs).state in descendant_count s g
        ≡ length (children s g) + sum_by (descendant_count s) (children s g) }
{}

/// Each event total is at most the number of commands recorded before: in the present state, and in each state that an undo
/// can restore.
pub fn events_are_bounded()
    ensures kept { (slots : ℕ) (m : Machine) (c : Command) → EventsBounded m
        → EventsBounded (tick slots m c).0 }
    ensures bounded { (slots : ℕ) (cs : List Command) → EventsBounded (after_all slots cs) }
{}

/// The past is what undos restore, each state in turn. It is well formed exactly if each of these states is. Its event
/// totals are bounded exactly if those of each state are bounded by the number of commands recorded before it. A run undoes
/// only its own records exactly if none of its commands leaves fewer records than there were before the run.
pub fn past_is_given_back()
    ensures well_formed { (slots : ℕ) (m : Machine) → MachineWellFormed slots m
        ↔ ((k : ℕ) → WellFormed slots (end_of slots m (undos k)).state) }
    ensures events { (slots : ℕ) (m : Machine) → EventsBounded m ↔ ((k : ℕ)
        → HasEventsUpTo (length (end_of slots m (undos k)).past) (end_of slots m (undos k)).state) }
    ensures own { (slots floor : ℕ) (m : Machine) (cs : List Command)
        → TakesBackItsOwn slots floor m cs ↔ ((k : ℕ) → 0 < k → k ≤ length cs
        → floor ≤ length (end_of slots m (take k cs)).past) }
{}

/// No total of a group exceeds the bound exactly if no group has a total that does.
pub fn bounded_totals()
    ensures { (n : ℕ) (s : State) → HasEventsUpTo n s ↔ ((p : Path)
        → asks (λ attr. ltb n attr.local || ltb n attr.total) (get s.groups p) ≡ false) }
{}
