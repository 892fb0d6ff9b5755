//! The laws of what only this crate can name: the result of reading a word, or the words of a line, means one thing in the
//! model, and faults come in order. The other laws are in `journal_laws`.

ghost use Rattle.std.specs.Prelude.{◌≡◌, ◌↔◌, Result, Ok, Err};
ghost use Rattle.std.specs.declared.alloc.AllocError.{AllocError};
ghost use Rattle.std.specs.declared.alloc.Global.{Global};
ghost use Rattle.flat_model.specs.Command as model;
ghost use Rattle.flat_model.specs.File as model_file;
ghost use Rattle.flat_model.specs.Path.{Path};
ghost use Rattle.flat_model.specs.State as model_state;
ghost use Rattle.flat_model.specs.Trace.{line_of};
ghost use Rattle.flat_model.specs.Trace as trace;
ghost use Rattle.undo_journal.specs.CommandMeaning.{command_of};
ghost use Rattle.undo_journal.specs.declared.command.Command.{Command};
ghost use Rattle.group_tree.specs.declared.attr.Limit.TheVariants as limits;
ghost use Rattle.group_tree.specs.declared.attr.LimitFile.TheVariants as limit_files;
ghost use Rattle.interface_files.specs.declared.file.File.TheVariants as files;
ghost use Rattle.trace_lines.specs.declared.action.Action.{Action};
ghost use Rattle.trace_lines.specs.declared.action.Action.TheVariants as actions;
ghost use Rattle.trace_lines.specs.declared.fault.TextFault.{TextFault};
ghost use Rattle.trace_lines.specs.declared.fault.Unread.{Unread};
ghost use Rattle.trace_lines.specs.declared.fault.Unread.TheVariants as unread;
ghost use Rattle.trace_lines.specs.declared.line.Line.TheVariants as lines;
ghost use Rattle.trace_lines.specs.Action.{command_at, ReadsAction};
ghost use Rattle.trace_lines.specs.LineMeaning.{text_fault_of, Says, ReadsPath, ReadsCommand};

/// A path that was read is the model's, and so is a fault. Out of memory comes only if the model has a path.
pub fn paths_are_told_apart()
    ensures read { (p : Path) (m : Result Path trace.TextFault) → ReadsPath (Ok p) m ↔ m ≡ Ok p }
    ensures refused { (f : TextFault) (p : Path) (t : trace.TextFault)
        → ¬ (ReadsPath (Err (unread.Fault f)) (Ok p))
        × (ReadsPath (Err (unread.Fault f)) (Err t) ↔ text_fault_of f ≡ t) }
    ensures memory { (p : Path) (t : trace.TextFault) → ReadsPath (Err unread.OutOfMemory) (Ok p)
        × ¬ (ReadsPath (Err unread.OutOfMemory) (Err t)) }
{}

/// A command that was read is the model's, and so is a fault. Out of memory comes exactly if it may come for a line that
/// runs the command.
pub fn commands_are_told_apart()
    ensures read { (c : Command Global) (m : Result model.Command trace.TextFault)
        → ReadsCommand (Ok c) m → Says (Ok (lines.Run c)) (line_of m) }
    ensures back { (c : Command Global) (m : Result model.Command trace.TextFault)
        → Says (Ok (lines.Run c)) (line_of m) → ReadsCommand (Ok c) m }
    ensures one { (c d : Command Global) (m : Result model.Command trace.TextFault)
        → ReadsCommand (Ok c) m → ReadsCommand (Ok d) m → c ≡ d }
    ensures refused { (f : TextFault) (m : Result model.Command trace.TextFault)
        → ReadsCommand {A = Global} (Err (unread.Fault f)) m ↔ Says (Ok (lines.Fault f)) (line_of m) }
    ensures memory { (e : AllocError) (m : Result model.Command trace.TextFault)
        → ReadsCommand {A = Global} (Err unread.OutOfMemory) m ↔ Says (Err e) (line_of m) }
{}

/// An action on a path is a command, and different actions are different commands.
pub fn actions_are_commands()
    ensures one { (p q : Path) (a b : Action) → command_at p a ≡ command_at q b → (p ≡ q) × (a ≡ b) }
    ensures kinds { (p : Path) → (command_at p (actions.Move 7) ≡ model.Move p 7)
        × (command_at p actions.Kill ≡ model.Kill p)
        × (command_at p (actions.Show files.Stat) ≡ model.Show p model_file.Stat)
        × (command_at p (actions.SetLimit limit_files.MaxDepth (limits.At 5))
        ≡ model.SetLimit p model_file.MaxDepth (model_state.At 5)) }
{}

/// A fault of the path comes before a fault of the action, and out of memory for the path comes last. Otherwise the command
/// is the action on the path.
pub fn faults_come_in_order()
    ensures path { (f : TextFault) (action : Result Action TextFault) (r : Result (Command Global) Unread)
        → ReadsAction (Err (unread.Fault f)) action r → r ≡ Err (unread.Fault f) }
    ensures action { (p : Path) (f : TextFault) (r : Result (Command Global) Unread)
        → ReadsAction (Ok p) (Err f) r → r ≡ Err (unread.Fault f) }
    ensures before_memory { (f : TextFault) (r : Result (Command Global) Unread)
        → ReadsAction (Err unread.OutOfMemory) (Err f) r → r ≡ Err (unread.Fault f) }
    ensures memory { (a : Action) (r : Result (Command Global) Unread)
        → ReadsAction (Err unread.OutOfMemory) (Ok a) r ↔ r ≡ Err unread.OutOfMemory }
    ensures command { (p : Path) (a : Action) (c : Command Global)
        → ReadsAction (Ok p) (Ok a) (Ok c) ↔ command_at p a ≡ command_of c }
    ensures refused { (p : Path) (a : Action) (f : TextFault)
        → ¬ (ReadsAction {A = Global} (Ok p) (Ok a) (Err (unread.Fault f))) }
{}
