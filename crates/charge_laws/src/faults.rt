//! The laws of faults: which refusal each stands for, and what a call does of a command.

ghost use Rattle.std.specs.Prelude.{◌≡◌, ◌≢◌, ◌⊎◌, ◌↔◌, ◌≤◌, ◌∷◌, ℕ, false, List, [], Option, Some, None, Result, Ok, Err, codes, length, map, option_map};
ghost use Rattle.flat_model.specs.Command as model;
ghost use Rattle.flat_model.specs.Machine.{Machine, tick};
ghost use Rattle.flat_model.specs.Path.{Path};
ghost use Rattle.flat_model.specs.Replies.{refusal_text};
ghost use Rattle.flat_model.specs.State.{State};
ghost use Rattle.flat_model.specs.Step.{after, after_refusal, refusal};
ghost use Rattle.pids_charge.specs.Answers.{Decides, Does, ForksTo, MovesTo, after_fault, names_in, refusal_along, refusal_in, refusal_of_fault};
ghost use Rattle.pids_charge.specs.declared.fault.ChargeRefusal.{ChargeRefusal};
ghost use Rattle.pids_charge.specs.declared.fault.ChargeRefusal.TheVariants as refused;
ghost use Rattle.pids_charge.specs.declared.fault.ChargeFault.{ChargeFault};
ghost use Rattle.pids_charge.specs.declared.fault.ChargeFault.TheVariants as fault;
ghost use Rattle.pids_charge.specs.declared.fork.ForkOutcome.{ForkOutcome};
ghost use Rattle.pids_charge.specs.declared.fork.ForkOutcome.TheVariants as fork;
ghost use Rattle.pids_charge.specs.declared.migrate.MoveOutcome.{MoveOutcome};
ghost use Rattle.pids_charge.specs.declared.migrate.MoveOutcome.TheVariants as move;
ghost use Rattle.pids_charge.specs.declared.migrate.Shifted.{Shifted};

/// The reply's words for each fault of a call at `/a/b/c`, whose numbers count names of that path. Out of memory has none.
pub fn words_of_faults()
    ensures groups { map (λ f. option_map refusal_text (refusal_of_fault (codes "a" ∷ codes "b" ∷ codes "c" ∷ []) f))
        (fault.NoGroup 2 ∷ fault.Descendants 0 ∷ fault.Depth 3 ∷ fault.PidsMax 1 ∷ [])
        ≡ Some (codes "nogroup /a/b") ∷ Some (codes "descendants /") ∷ Some (codes "depth /a/b/c") ∷ Some (codes "pidsmax /a") ∷ [] }
    ensures others { map (λ f. option_map refusal_text (refusal_of_fault [] f))
        (fault.Exists ∷ fault.NoSlot ∷ fault.RootFixed ∷ fault.HasChildren ∷ fault.HasProcesses ∷ fault.NoFile ∷ [])
        ≡ Some (codes "exists") ∷ Some (codes "noslot") ∷ Some (codes "rootfixed") ∷ Some (codes "haschildren")
        ∷ Some (codes "hasprocesses") ∷ Some (codes "nofile") ∷ [] }
    ensures pids { map (λ f. option_map refusal_text (refusal_of_fault [] f)) (fault.NoProcess 7 ∷ fault.PidInUse 12 ∷ [])
        ≡ Some (codes "noprocess 7") ∷ Some (codes "pidinuse 12") ∷ [] }
    ensures memory { (p : Path) (f : ChargeFault) → (refusal_of_fault p f ≡ None) ↔ (f ≡ fault.OutOfMemory) }
{}

/// A path and a refusal of the flat state determine the refusal, if its number counts names of the path, and that determines the
/// fault. Only a refused fork changes the state.
pub fn faults_are_told_apart()
    ensures one { (p : Path) (q r : ChargeRefusal) → names_in q ≤ length p → names_in r ≤ length p
        → refusal_along p q ≡ refusal_along p r → q ≡ r }
    ensures faults { (f g : ChargeFault) → refusal_in f ≡ refusal_in g → f ≡ g }
    ensures counted { (names : ℕ) → (names_in (refused.NoGroup names) ≡ names) × (names_in (refused.PidsMax names) ≡ names) }
    ensures unchanged { (s : State) (p : Path) (f : ChargeFault) → ((names : ℕ) → f ≢ fault.PidsMax names)
        → after_fault s (refusal_of_fault p f) ≡ s }
    ensures home { (s : State) (p : Path) (f : ChargeFault) → (after_fault s (refusal_of_fault p f)).home ≡ s.home }
{}

/// A call that did its command leaves the state of the machine's step. A refused command is refused, and changes only what
/// the refusal does; an accepted one may only run out of memory, which changes nothing.
pub fn what_a_call_does()
    ensures done { (slots : ℕ) (m : Machine) (c : model.Command) (p : Path) (x : ℕ) (new : State) → model.is_undo c ≡ false
        → Does slots m.state c p (Ok x) new → new ≡ (tick slots m c).0.state }
    ensures accepted { (slots : ℕ) (s : State) (c : model.Command) (p : Path) (r : Result ℕ ChargeFault) (new : State) → refusal slots s c ≡ None
        → Does slots s c p r new
        ↔ (((x : ℕ) × (r ≡ Ok x) × (new ≡ after s c)) ⊎ ((r ≡ Err fault.OutOfMemory) × (new ≡ s))) }
    ensures refused { (slots : ℕ) (s : State) (c : model.Command) (p : Path) (q : model.Refusal) (r : Result ℕ ChargeFault) (new : State) → refusal slots s c ≡ Some q
        → Does slots s c p r new
        ↔ ((f : ChargeFault) × (r ≡ Err f) × (refusal_of_fault p f ≡ Some q) × (new ≡ after_refusal s q)) }
{}

/// A call that decides does what one with faults does, but that it is never out of memory.
pub fn what_a_call_decides()
    ensures done { (slots : ℕ) (s : State) (c : model.Command) (p : Path) (x : ℕ) (new : State)
        → Decides slots s c p (Ok x) new ↔ Does slots s c p (Ok x) new }
    ensures refused { (slots : ℕ) (s : State) (c : model.Command) (p : Path) (f : ChargeFault) (r : ChargeRefusal) (new : State) → refusal_in f ≡ Some r
        → Decides slots s c p {X = ℕ} (Err r) new ↔ Does slots s c p {X = ℕ} (Err f) new }
{}

/// A fork leaves the state of the machine's step, also where it is refused. It is not both made and counted, nor made and refused,
/// nor counted and refused without a count.
pub fn what_becomes_of_a_fork()
    ensures stepped { (slots : ℕ) (m : Machine) (from child : ℕ) (outcome : ForkOutcome ℕ) (new : State)
        → ForksTo slots m.state from child outcome new → new ≡ (tick slots m (model.Fork from child)).0.state }
    ensures one { (slots : ℕ) (s : State) (from child : ℕ) (peaks : List ℕ) (p q : Path) (new other : State)
        → ForksTo {A = ℕ} slots s from child (fork.Made peaks) new → ForksTo {A = ℕ} slots s from child (fork.Counted p q) other → ⊥ }
    ensures refused { (slots : ℕ) (s : State) (from child : ℕ) (peaks : List ℕ) (r : ChargeRefusal) (new other : State)
        → ForksTo {A = ℕ} slots s from child (fork.Made peaks) new → ForksTo {A = ℕ} slots s from child (fork.Refused r) other → ⊥ }
    ensures uncounted { (slots : ℕ) (s : State) (from child : ℕ) (p q : Path) (r : ChargeRefusal) (new other : State)
        → ForksTo {A = ℕ} slots s from child (fork.Counted p q) new → ForksTo {A = ℕ} slots s from child (fork.Refused r) other → ⊥ }
{}

/// A move that was made leaves the state of the machine's step; one that was refused leaves the state, and is the machine's reply. It
/// is not both.
pub fn what_becomes_of_a_move()
    ensures moved { (slots : ℕ) (m : Machine) (pid : ℕ) (p to : Path) (left : Shifted ℕ) (new : State)
        → MovesTo slots m.state pid p (move.Moved to left) new → new ≡ (tick slots m (model.Move p pid)).0.state }
    ensures refused { (slots : ℕ) (m : Machine) (pid : ℕ) (p : Path) (r : ChargeRefusal) (new : State)
        → MovesTo {A = ℕ} slots m.state pid p (move.Refused r) new → (new ≡ m.state) × ((tick slots m (model.Move p pid)).1 ≡ model.Refused (refusal_along p r)) }
    ensures one { (slots : ℕ) (s : State) (pid : ℕ) (p to : Path) (left : Shifted ℕ) (r : ChargeRefusal) (new other : State)
        → MovesTo slots s pid p (move.Moved to left) new → MovesTo {A = ℕ} slots s pid p (move.Refused r) other → ⊥ }
{}
