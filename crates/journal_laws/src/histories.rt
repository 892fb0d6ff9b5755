//! The machine of an engine: what is kept of its past, what an undo restores, and what allocates.

ghost use Rattle.std.specs.Prelude.{
  ◌≡◌,
  ◌≢◌,
  ◌<◌,
  ◌≤◌,
  ◌↔◌,
  ◌++◌,
  ◌∷◌,
  ◌+◌,
  ◌-◌,
  ◌^◌,
  ℕ,
  true,
  false,
  List,
  [],
  Some,
  None,
  Ok,
  Err,
  length,
  drop,
  sum_by,
};
ghost use Rattle.std.specs.FinMap.{get};
ghost use Rattle.std.specs.declared.alloc.AllocError.{AllocError};
ghost use Rattle.std.specs.declared.alloc.Global.{Global};
ghost use Rattle.flat_model.specs.Command as model;
ghost use Rattle.flat_model.specs.Counts.{
  children,
  current,
  has_process,
  is_group,
  members,
  populated,
};
ghost use Rattle.flat_model.specs.File.{LimitFile};
ghost use Rattle.flat_model.specs.Inverse.{
  Inverse,
  Made,
  Removed,
  Forked,
  Exited,
  Moved,
  Limited,
  Counted,
  back,
  inverse,
};
ghost use Rattle.flat_model.specs.Machine.{
  Machine,
  TakesBackItsOwn,
  after_all,
  end_of,
  new_machine,
  replies,
  tick,
  undos,
};
ghost use Rattle.flat_model.specs.Path.{Path, at_or_below, parent};
ghost use Rattle.flat_model.specs.State.{Attr, Limit, State, start};
ghost use Rattle.flat_model.specs.Step.{after, refusal};
ghost use Rattle.flat_model.specs.WellFormed.{MachineWellFormed};
ghost use Rattle.undo_journal.specs.declared.journal.JournalEntry.{JournalEntry};
ghost use Rattle.undo_journal.specs.declared.reply.Reply.{Reply};
ghost use Rattle.undo_journal.specs.Answer.{
  Answers,
  IsNewest,
  newest_command,
  record_of,
  recorded_commands,
  state_after,
  undoes_without_memory,
};
ghost use Rattle.undo_journal.specs.Beginning.{beginning, forgets, forgotten};
ghost use Rattle.undo_journal.specs.Headline.{IsReached, KeepsHistory, UndoesAll};
ghost use Rattle.undo_journal.specs.History.{
  IsHistory,
  IsReady,
  machine_of,
  records,
  timeline_of,
};
ghost use Rattle.undo_journal.specs.CommandMeaning.{command_of, inverse_of, reply_of};
ghost use Rattle.undo_journal.specs.Timeline.{Timeline, becomes, from_start};
ghost use Rattle.journal_laws.specs.Runs.{KeepsEach};

/// An answer is unique: the machine has one successor, there is one reply, which is never out of memory, and nothing is
/// forgotten.
pub fn answers_are_one()
    ensures exactly { (slots : ℕ) (old new : Timeline) (c : model.Command) (r : Reply Global)
        → Answers slots old c r new ↔ ((new.machine ≡ (tick slots old.machine c).0)
        × (new.forgotten ≡ old.forgotten) × (reply_of r ≡ Some (tick slots old.machine c).1)) }
    ensures one { (slots : ℕ) (old new again : Timeline) (c : model.Command) (r q : Reply Global)
        → Answers slots old c r new → Answers slots old c q again
        → (reply_of r ≡ reply_of q) × (new ≡ again) }
    ensures answered { (slots : ℕ) (old new : Timeline) (c : model.Command) (r : Reply Global)
        → Answers slots old c r new → reply_of r ≢ None }
{}

/// The newest recorded command is the last of them, and none is left out.
pub fn recorded_commands_are_in_order()
    ensures none { recorded_commands [] ≡ [] }
    ensures newest { (c : model.Command) (s : State) (past : List (model.Command × State))
        → recorded_commands ((c, s) ∷ past) ≡ recorded_commands past ++ c ∷ [] }
    ensures many { (past : List (model.Command × State)) → length (recorded_commands past) ≡ length past }
    ensures three { (s : State) → recorded_commands ((model.Exit 3, s) ∷ (model.Exit 2, s) ∷ (model.Exit 1, s) ∷ [])
        ≡ model.Exit 1 ∷ model.Exit 2 ∷ model.Exit 3 ∷ [] }
{}

/// If a command is recorded, it and the state before it come in front of the old past, so that an undo restores the machine.
/// From any machine that commands reach, the machine's own step keeps its history.
pub fn history_is_kept()
    ensures reached { (slots : ℕ) (cs : List model.Command) (c : model.Command)
        → KeepsHistory slots (from_start (after_all slots cs)) c (from_start (tick slots (after_all slots cs) c).0) }
    ensures recorded { (slots : ℕ) (old new : Timeline) (c : model.Command)
        → KeepsHistory slots old c new → length old.machine.past < length new.machine.past
        → new.machine.past ≡ (c, old.machine.state) ∷ old.machine.past }
    ensures undone { (slots : ℕ) (old new : Timeline) (c : model.Command)
        → KeepsHistory slots old c new → length old.machine.past < length new.machine.past
        → tick slots new.machine model.Undo ≡ (old.machine, model.Undone c) }
    ensures run { (slots : ℕ) (old new : Timeline) (c : model.Command) (cs : List model.Command)
        → KeepsHistory slots old c new → TakesBackItsOwn slots (length new.machine.past) new.machine cs
        → end_of slots (end_of slots new.machine cs) (undos (length (end_of slots new.machine cs).past - length new.machine.past))
        ≡ new.machine }
{}

/// The past begins with its oldest state; if there is no past, with the present state. No command moves that beginning, and
/// undoing everything restores it. If nothing was forgotten, it is the start: an engine that claims another is not reached.
pub fn history_begins_where_it_began()
    ensures oldest { (slots : ℕ) (old new : Timeline) (c d : model.Command) (s : State) (past : List (model.Command × State))
        → KeepsHistory slots old c new → new.machine.past ≡ past ++ (d, s) ∷ [] → s ≡ (beginning old.machine).state }
    ensures nothing { (slots : ℕ) (old new : Timeline) (c : model.Command)
        → KeepsHistory slots old c new → new.machine.past ≡ [] → new.machine ≡ beginning old.machine }
    ensures run { (slots : ℕ) (m : Machine) (cs : List model.Command)
        → beginning (end_of slots m cs) ≡ beginning m }
    ensures all { (slots : ℕ) (m : Machine) → end_of slots m (undos (length m.past)) ≡ beginning m }
    ensures reached { (slots : ℕ) (cs : List model.Command) → IsReached slots (from_start (after_all slots cs)) }
    ensures well_formed { (slots : ℕ) (t : Timeline) → IsReached slots t → MachineWellFormed slots t.machine }
    ensures first { (slots : ℕ) (t : Timeline) (d : model.Command) (s : State) (past : List (model.Command × State))
        → IsReached slots t → t.machine.past ≡ past ++ (d, s) ∷ [] → s ≡ (beginning t.machine).state }
    ensures unforgotten { (slots : ℕ) (m : Machine) → IsReached slots (from_start m) → beginning m ≡ new_machine }
    ensures elsewhere { (slots : ℕ) (s : State) → s ≢ start
        → IsReached slots (from_start (record { state = s; past = [] })) → ⊥ }
{}

/// For an engine that never forgets, the past begins at the start: a new engine's does, and no answered command forgets or
/// moves the beginning. Then undoing everything restores the start, and the oldest state in the past is the start. This
/// holds after any run of answered commands from a new engine.
pub fn history_begins_at_the_start()
    ensures new { beginning new_machine ≡ new_machine }
    ensures kept { (slots : ℕ) (old new : Timeline) (c : model.Command)
        → KeepsHistory slots old c new → beginning old.machine ≡ new_machine → beginning new.machine ≡ new_machine }
    ensures unforgotten { (slots : ℕ) (old new : Timeline) (c : model.Command)
        → KeepsHistory slots old c new → new.forgotten ≡ old.forgotten }
    ensures start { (slots : ℕ) (old new : Timeline) (c : model.Command)
        → KeepsHistory slots old c new → old.forgotten ≡ 0 → (beginning new.machine ≡ new_machine)
        × (end_of slots new.machine (undos (length new.machine.past)) ≡ new_machine) }
    ensures undone { (slots : ℕ) (old new : Timeline) (c : model.Command)
        → KeepsHistory slots old c new → beginning old.machine ≡ new_machine
        → end_of slots new.machine (undos (length new.machine.past)) ≡ new_machine }
    ensures oldest { (slots : ℕ) (old new : Timeline) (c d : model.Command) (s : State) (past : List (model.Command × State))
        → KeepsHistory slots old c new → beginning old.machine ≡ new_machine
        → new.machine.past ≡ past ++ (d, s) ∷ [] → s ≡ start }
    ensures nothing { (slots : ℕ) (old new : Timeline) (c : model.Command)
        → KeepsHistory slots old c new → beginning old.machine ≡ new_machine → new.machine.past ≡ []
        → new.machine ≡ new_machine }
    ensures run { (slots : ℕ) (steps : List (model.Command × Timeline)) (last : Timeline)
        → KeepsEach slots (from_start new_machine) steps last
        → (last.forgotten ≡ 0) × (beginning last.machine ≡ new_machine)
        × (end_of slots last.machine (undos (length last.machine.past)) ≡ new_machine) }
    ensures reached { (slots : ℕ) (cs : List model.Command) → beginning (after_all slots cs) ≡ new_machine }
    ensures all { (slots n : ℕ) (old new : Timeline) → beginning old.machine ≡ new_machine
        → UndoesAll {E = AllocError} slots old (Ok n) new → new.machine ≡ new_machine }
{}

/// A machine that has forgotten has the same state and nothing to undo. It answers every command as if it had not forgotten,
/// as long as no undo reaches what it forgot.
pub fn forgetting_keeps_the_state()
    ensures state { (m : Machine) → (forgotten m).state ≡ m.state }
    ensures past { (m : Machine) → (forgotten m).past ≡ [] }
    ensures nothing { (slots : ℕ) (m : Machine)
        → tick slots (forgotten m) model.Undo ≡ (forgotten m, model.NothingToUndo) }
    ensures begins { (m : Machine) → beginning (forgotten m) ≡ forgotten m }
    ensures well_formed { (slots : ℕ) (m : Machine)
        → MachineWellFormed slots m → MachineWellFormed slots (forgotten m) }
    ensures replies { (slots : ℕ) (m : Machine) (cs : List model.Command)
        → TakesBackItsOwn slots (length m.past) m cs
        → replies slots (forgotten m) cs ≡ replies slots m cs }
    ensures after { (slots : ℕ) (m : Machine) (cs : List model.Command)
        → TakesBackItsOwn slots (length m.past) m cs
        → (end_of slots (forgotten m) cs).state ≡ (end_of slots m cs).state }
    ensures counted { (t : Timeline) → t.forgotten + length t.machine.past < 2 ^ 64
        → (forgets t).forgotten ≡ t.forgotten + length t.machine.past }
    ensures never { (t : Timeline) → (forgets t).forgotten ≡ 0
        → (t.forgotten ≡ 0) × (t.machine.past ≡ []) }
{}

/// Each group counts its own members and what its children count, and no other process. It is populated exactly if some
/// process is in it or below it. No group but the root counts more than its peak.
pub fn counts_are_kept()
    ensures whole { (slots : ℕ) (old new : Timeline) (c : model.Command) (g : Path)
        → KeepsHistory slots old c new
        → current new.machine.state g
        ≡ length (members new.machine.state g) + sum_by (current new.machine.state) (children new.machine.state g) }
    ensures leaf { (slots : ℕ) (old new : Timeline) (c : model.Command) (g : Path)
        → KeepsHistory slots old c new → children new.machine.state g ≡ []
        → current new.machine.state g ≡ length (members new.machine.state g) }
    ensures populated { (slots : ℕ) (old new : Timeline) (c : model.Command) (g : Path)
        → KeepsHistory slots old c new → (populated new.machine.state g ≡ true)
        ↔ ((pid : ℕ) × (at : Path) × (get new.machine.state.home pid ≡ Some at) × (at_or_below at g ≡ true)) }
    ensures peak { (slots : ℕ) (old new : Timeline) (c : model.Command) (g : Path) (x : Attr)
        → KeepsHistory slots old c new → g ≢ [] → get new.machine.state.groups g ≡ Some x
        → current new.machine.state g ≤ x.peak }
{}

/// If everything was undone, the machine is at the beginning of its past, nothing was forgotten, and the number returned is
/// that of the recorded commands. An engine that has never forgotten is a new one again. When out of memory, fewer commands are
/// undone; the others remain recorded, and the state is the one before the last command that was undone.
pub fn everything_undone()
    ensures all { (slots n : ℕ) (old new : Timeline)
        → UndoesAll {E = AllocError} slots old (Ok n) new
        ↔ ((n ≡ length old.machine.past) × (new.machine.state ≡ (beginning old.machine).state)
        × (new.machine.past ≡ []) × (new.forgotten ≡ old.forgotten)
        × (old.forgotten ≡ 0 → new ≡ from_start new_machine)) }
    ensures elsewhere { (slots n : ℕ) (old new : Timeline) → old.forgotten ≡ 0 → new ≢ from_start new_machine
        → UndoesAll {E = AllocError} slots old (Ok n) new → ⊥ }
    ensures fewer { (slots n : ℕ) (e : AllocError) (old new : Timeline)
        → UndoesAll slots old (Err (n, e)) new → n < length old.machine.past }
    ensures rest { (slots n : ℕ) (e : AllocError) (old new : Timeline)
        → UndoesAll slots old (Err (n, e)) new → new.machine.past ≡ drop n old.machine.past }
    ensures kept { (slots n : ℕ) (e : AllocError) (old new : Timeline)
        → UndoesAll slots old (Err (n, e)) new → new.forgotten ≡ old.forgotten }
    ensures none { (slots : ℕ) (e : AllocError) (old new : Timeline)
        → UndoesAll slots old (Err (0, e)) new → new ≡ old }
    ensures state { (slots : ℕ) (e : AllocError) (old new : Timeline) (d : model.Command) (s : State) (before past : List (model.Command × State))
        → old.machine.past ≡ before ++ (d, s) ∷ past
        → UndoesAll slots old (Err (length before + 1, e)) new → new.machine.state ≡ s }
    ensures without_a_past { (slots n : ℕ) (e : AllocError) (old new : Timeline) → old.machine.past ≡ []
        → UndoesAll slots old (Err (n, e)) new → ⊥ }
    ensures any { (slots n : ℕ) (e : AllocError) (old : Timeline) → n < length old.machine.past
        → UndoesAll slots old (Err (n, e)) (becomes old (end_of slots old.machine (undos n))) }
{}

/// The newest recorded command is the one that an undo says it has undone. There is none exactly if an undo says that there
/// is nothing. Its record is unique, and restores the state before it.
pub fn newest_is_the_last_recorded()
    ensures undone { (slots : ℕ) (m : Machine) (c : model.Command)
        → (newest_command m.past ≡ Some c) ↔ ((tick slots m model.Undo).1 ≡ model.Undone c) }
    ensures nothing { (slots : ℕ) (m : Machine)
        → (newest_command m.past ≡ None) ↔ ((tick slots m model.Undo).1 ≡ model.NothingToUndo) }
    ensures recorded { (slots : ℕ) (m : Machine) (c : model.Command) (i : Inverse)
        → refusal slots m.state c ≡ None → inverse m.state c ≡ Some i
        → IsNewest slots (after m.state c) ((c, m.state) ∷ m.past) i }
    ensures one { (slots : ℕ) (now : State) (past : List (model.Command × State)) (i j : Inverse)
        → IsNewest slots now past i → IsNewest slots now past j → i ≡ j }
    ensures given_back { (slots : ℕ) (m : Machine) (i : Inverse)
        → IsNewest slots m.state m.past i → back i m.state ≡ (tick slots m model.Undo).0.state }
    ensures never { (slots : ℕ) (now : State) (i : Inverse) → IsNewest slots now [] i → ⊥ }
{}

/// A command other than undo leaves the next state of the machine, and a record exactly if the machine's past grows. The
/// record restores the state before.
pub fn records_are_of_what_changes()
    ensures state { (slots : ℕ) (m : Machine) (c : model.Command) → model.is_undo c ≡ false
        → state_after slots m.state c ≡ (tick slots m c).0.state }
    ensures recorded { (slots : ℕ) (m : Machine) (c : model.Command) (i : Inverse)
        → record_of slots m.state c ≡ Some i
        → (tick slots m c).0.past ≡ (c, m.state) ∷ m.past }
    ensures unrecorded { (slots : ℕ) (m : Machine) (c : model.Command) → model.is_undo c ≡ false
        → record_of slots m.state c ≡ None → (tick slots m c).0 ≡ m }
    ensures given_back { (slots : ℕ) (s : State) (c : model.Command) (i : Inverse)
        → record_of slots s c ≡ Some i → back i (state_after slots s c) ≡ s }
    ensures history { (slots gone : ℕ) (s : State) (es : List (model.Command × Inverse)) (c : model.Command) (i : Inverse)
        → IsHistory slots gone s es → record_of slots s c ≡ Some i
        → IsHistory slots gone (state_after slots s c) ((c, i) ∷ es) }
{}

/// A journal is read with its newest entry first, and it describes a machine that commands reach. If nothing was forgotten,
/// it begins at the start. A whole journal can be forgotten.
pub fn journals_are_histories()
    ensures newest_first { (journal : List (JournalEntry Global)) (e : JournalEntry Global)
        → records (journal ++ e ∷ []) ≡ (command_of e.command, inverse_of e.inverse) ∷ records journal }
    ensures empty { records {A = Global} [] ≡ [] }
    ensures start { (slots : ℕ) (s : State) → IsHistory slots 0 s [] ↔ (s ≡ start) }
    ensures forgotten { (slots gone : ℕ) (s : State) (es : List (model.Command × Inverse))
        → IsHistory slots gone s es → gone + length es < 2 ^ 64 - 1
        → IsHistory slots (gone + length es) s [] }
    ensures state { (s : State) (journal : List (JournalEntry Global)) → (machine_of s journal).state ≡ s }
    ensures past { (s : State) (journal : List (JournalEntry Global)) (e : JournalEntry Global)
        → (machine_of s (journal ++ e ∷ [])).past
        ≡ (command_of e.command, back (inverse_of e.inverse) s)
        ∷ (machine_of (back (inverse_of e.inverse) s) journal).past }
    ensures reached { (slots gone : ℕ) (s : State) (journal : List (JournalEntry Global))
        → IsHistory slots gone s (records journal) → IsReached slots (timeline_of gone s journal) }
{}

/// What a record undoes could be done by a command: removing a group that was made, ending a process that was made, moving
/// one back, setting a limit. A removed group has a place to return to, and an exited process has a group and its pid.
pub fn records_can_be_taken_back()
    ensures made { (slots : ℕ) (m : Machine) (p : Path) → IsReady slots m.state (Made p)
        → (tick slots m (model.RemoveGroup p)).1 ≡ model.Done }
    ensures forked { (slots : ℕ) (m : Machine) (pid : ℕ) (peaks : List ℕ)
        → IsReady slots m.state (Forked pid peaks) → (tick slots m (model.Exit pid)).1 ≡ model.Done }
    ensures moved { (slots : ℕ) (m : Machine) (pid : ℕ) (p : Path) (peaks : List ℕ)
        → IsReady slots m.state (Moved pid p peaks) → (tick slots m (model.Move p pid)).1 ≡ model.Done }
    ensures limited { (slots : ℕ) (m : Machine) (p : Path) (file : LimitFile) (value : Limit)
        → IsReady slots m.state (Limited p file value)
        → (tick slots m (model.SetLimit p file value)).1 ≡ model.Done }
    ensures removed { (slots : ℕ) (s : State) (p : Path) (x : Attr) → IsReady slots s (Removed p x)
        → (is_group s p ≡ false) × (is_group s (parent p) ≡ true) }
    ensures exited { (slots : ℕ) (s : State) (pid : ℕ) (p : Path) → IsReady slots s (Exited pid p)
        → (has_process s pid ≡ false) × (is_group s p ≡ true) }
    ensures counted { (slots : ℕ) (s : State) (a : Path) (x : Attr) → IsReady slots s (Counted a)
        → get s.groups a ≡ Some x → 1 ≤ x.local }
    ensures newest { (slots gone : ℕ) (s : State) (c : model.Command) (i : Inverse) (es : List (model.Command × Inverse))
        → IsHistory slots gone s ((c, i) ∷ es) → IsReady slots s i }
{}

/// Undoing a new group, a new process, a limit or a counted fork allocates nothing, nor does an undo with nothing to undo.
/// Undoing a removal, an exit, a move or a kill may allocate.
pub fn undone_without_memory()
    ensures nothing { (slots : ℕ) → undoes_without_memory slots [] ≡ true }
    ensures made { (slots : ℕ) (s : State) (past : List (model.Command × State)) (p : Path)
        → refusal slots s (model.MakeGroup p) ≡ None
        → undoes_without_memory slots ((model.MakeGroup p, s) ∷ past) ≡ true }
    ensures forked { (slots : ℕ) (s : State) (past : List (model.Command × State)) (from child : ℕ)
        → refusal slots s (model.Fork from child) ≡ None
        → undoes_without_memory slots ((model.Fork from child, s) ∷ past) ≡ true }
    ensures limited { (slots : ℕ) (s : State) (past : List (model.Command × State)) (p : Path) (file : LimitFile) (value : Limit)
        → refusal slots s (model.SetLimit p file value) ≡ None
        → undoes_without_memory slots ((model.SetLimit p file value, s) ∷ past) ≡ true }
    ensures counted { (slots : ℕ) (s : State) (past : List (model.Command × State)) (c : model.Command) (a : Path)
        → refusal slots s c ≡ Some (model.OverPidsMax a)
        → undoes_without_memory slots ((c, s) ∷ past) ≡ true }
    ensures removed { (slots : ℕ) (s : State) (past : List (model.Command × State)) (p : Path)
        → refusal slots s (model.RemoveGroup p) ≡ None
        → undoes_without_memory slots ((model.RemoveGroup p, s) ∷ past) ≡ false }
    ensures exited { (slots : ℕ) (s : State) (past : List (model.Command × State)) (pid : ℕ)
        → refusal slots s (model.Exit pid) ≡ None
        → undoes_without_memory slots ((model.Exit pid, s) ∷ past) ≡ false }
    ensures moved { (slots : ℕ) (s : State) (past : List (model.Command × State)) (p : Path) (pid : ℕ)
        → refusal slots s (model.Move p pid) ≡ None
        → undoes_without_memory slots ((model.Move p pid, s) ∷ past) ≡ false }
    ensures killed { (slots : ℕ) (s : State) (past : List (model.Command × State)) (g : Path)
        → refusal slots s (model.Kill g) ≡ None
        → undoes_without_memory slots ((model.Kill g, s) ∷ past) ≡ false }
{}
