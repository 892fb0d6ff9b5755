//! Each result of `trace_lines` means one thing in the model; and which results may be out of memory.

ghost use Rattle.std.specs.Prelude.{◌≡◌, ◌≢◌, ℕ, ◌↔◌, ◌⊎◌, List, [], ◌∷◌, codes, Option, Some, None, Ok, Err, length};
ghost use Rattle.std.specs.declared.alloc.AllocError.{AllocError};
ghost use Rattle.flat_model.specs.Command as model;
ghost use Rattle.flat_model.specs.File as model_file;
ghost use Rattle.flat_model.specs.Path.{Path};
ghost use Rattle.flat_model.specs.State as model_state;
ghost use Rattle.flat_model.specs.Trace.{Word, cat_of, path_word, write_words};
ghost use Rattle.flat_model.specs.Trace as trace;
ghost use Rattle.trace_lines.specs.declared.fault.TextFault.{TextFault};
ghost use Rattle.trace_lines.specs.declared.fault.TextFault.TheVariants as text;
ghost use Rattle.trace_lines.specs.declared.line.Line.{Line};
ghost use Rattle.trace_lines.specs.declared.line.Line.TheVariants as lines;
ghost use Rattle.trace_lines.specs.Action.{write_at, show_at};
ghost use Rattle.trace_lines.specs.Cut.{the_one, the_two, the_three};
ghost use Rattle.trace_lines.specs.LineMeaning.{text_fault_of, Says};
ghost use Rattle.trace_lines.specs.Replied.{AddsReply};

/// Each text fault is one of the model's, and each of the model's is one of these. A line that was read is the model's, and
/// different lines are different there.
pub fn lines_are_told_apart()
    ensures faults { (text_fault_of text.Syntax ≡ trace.BadSyntax)
        × (text_fault_of text.Path ≡ trace.BadPath) × (text_fault_of text.File ≡ trace.BadFile)
        × (text_fault_of text.Direction ≡ trace.BadDirection)
        × (text_fault_of text.Value ≡ trace.BadValue) }
    ensures apart { (f g : TextFault) → text_fault_of f ≡ text_fault_of g → f ≡ g }
    ensures all { (m : trace.TextFault) → (f : TextFault) × (text_fault_of f ≡ m) }
    ensures answered { (line : Line) (m n : trace.Line) → Says (Ok line) m → Says (Ok line) n → m ≡ n }
    ensures one { (a b : Line) (m : trace.Line) → Says (Ok a) m → Says (Ok b) m → a ≡ b }
    ensures skipped { (m : trace.Line) → Says (Ok lines.Skip) m ↔ m ≡ trace.Skip }
    ensures refused { (f : TextFault) (m : trace.Line) → Says (Ok (lines.Fault f)) m
        → (t : trace.TextFault) × (m ≡ trace.Fault t) × (text_fault_of f ≡ t) }
{}

/// Only a line that runs a command with a path may be out of memory, and each such line may.
pub fn out_of_memory_is_for_paths()
    ensures only { (e : AllocError) (m : trace.Line) → Says (Err e) m → (p : Path)
        × ((m ≡ trace.Run (model.MakeGroup p)) ⊎ (m ≡ trace.Run (model.RemoveGroup p))
        ⊎ ((pid : ℕ) × (m ≡ trace.Run (model.Move p pid)))
        ⊎ ((file : model_file.LimitFile) × (value : model_state.Limit) × (m ≡ trace.Run (model.SetLimit p file value)))
        ⊎ (m ≡ trace.Run (model.Kill p))
        ⊎ ((file : model_file.File) × (m ≡ trace.Run (model.Show p file)))) }
    ensures each { (e : AllocError) (p : Path) (pid : ℕ) (file : model_file.LimitFile)
        (value : model_state.Limit) (shown : model_file.File)
        → Says (Err e) (trace.Run (model.MakeGroup p)) × Says (Err e) (trace.Run (model.RemoveGroup p))
        × Says (Err e) (trace.Run (model.Move p pid))
        × Says (Err e) (trace.Run (model.SetLimit p file value))
        × Says (Err e) (trace.Run (model.Kill p)) × Says (Err e) (trace.Run (model.Show p shown)) }
{}

/// Reading the line of a fork, an exit, a look-up of a process or an undo is never out of memory, nor is reading a line that
/// is refused or skipped.
pub fn some_have_no_path()
    ensures commands { (e : AllocError) (m n : ℕ) → ¬ (Says (Err e) (trace.Run (model.Fork m n)))
        × ¬ (Says (Err e) (trace.Run (model.Exit m))) × ¬ (Says (Err e) (trace.Run (model.Locate m)))
        × ¬ (Says (Err e) (trace.Run model.Undo)) }
    ensures others { (e : AllocError) (f : trace.TextFault) → ¬ (Says (Err e) trace.Skip)
        × ¬ (Says (Err e) (trace.Fault f)) }
{}

/// The words after a path mean the same as in the words of the whole command: file, direction and value. The first fault is
/// returned.
#[tactic(auto, unfolding(flat_model::specs::Values::number_fault))]
pub fn actions_are_told_apart()
    ensures write { (p : Path) (word file value : Word) → path_word word ≡ Ok p
        → write_at p file value ≡ write_words (word ∷ file ∷ value ∷ []) }
    ensures show { (p : Path) (word file : Word) → path_word word ≡ Ok p
        → show_at p file ≡ cat_of (word ∷ file ∷ []) }
    ensures written { (p : Path) → (write_at p (codes "cgroup.procs") (codes "7") ≡ Ok (model.Move p 7))
        × (write_at p (codes "pids.max") (codes "max") ≡ Ok (model.SetLimit p model_file.PidsMax model_state.Unlimited))
        × (write_at p (codes "cgroup.max.depth") (codes "5") ≡ Ok (model.SetLimit p model_file.MaxDepth (model_state.At 5)))
        × (write_at p (codes "cgroup.kill") (codes "1") ≡ Ok (model.Kill p))
        × (write_at p (codes "pids") (codes "x") ≡ Err trace.BadFile)
        × (write_at p (codes "cgroup.stat") (codes "x") ≡ Err trace.BadDirection)
        × (write_at p (codes "cgroup.procs") (codes "x") ≡ Err trace.BadValue) }
    ensures shown { (p : Path) → (show_at p (codes "pids.current") ≡ Ok (model.Show p model_file.PidsCurrent))
        × (show_at p (codes "pids") ≡ Err trace.BadFile)
        × (show_at p (codes "cgroup.kill") ≡ Err trace.BadDirection) }
{}

/// Words are taken exactly if there is the right number of them.
pub fn words_are_counted()
    ensures one { (ws : List Word) (p : Word) → the_one ws ≡ Some p ↔ ws ≡ p ∷ [] }
    ensures two { (ws : List Word) (p q : Word) → the_two ws ≡ Some (p, q) ↔ ws ≡ p ∷ q ∷ [] }
    ensures three { (ws : List Word) (p q r : Word) → the_three ws ≡ Some (p, q, r) ↔ ws ≡ p ∷ q ∷ r ∷ [] }
    ensures others { (ws : List Word) → (the_one ws ≡ None ↔ length ws ≢ 1)
        × (the_two ws ≡ None ↔ length ws ≢ 2) × (the_three ws ≡ None ↔ length ws ≢ 3) }
{}

/// A reply appends one text to the bytes; out of memory appends none.
pub fn replies_are_told_apart()
    ensures one { (old a b : List ℕ) (n : ℕ) (r : Option model.Reply) → AddsReply old n r a
        → AddsReply old n r b → a ≡ b }
    ensures none { (old new : List ℕ) (n : ℕ) → ¬ (AddsReply old n None new) }
    ensures done { AddsReply (codes "1 ok\n") 2 (Some model.Done) (codes "1 ok\n2 ok\n") }
    ensures text { AddsReply (codes "1 ok\n") 2 (Some (model.Text (codes "a\nb\n"))) (codes "1 ok\n2 ok\n| a\n| b\n") }
    ensures nothing { AddsReply [] 3 (Some model.NothingToUndo) (codes "3 refused nothing\n") }
    ensures refused { AddsReply [] 4 (Some (model.Refused model.NotReadable)) (codes "4 refused direction\n") }
{}
