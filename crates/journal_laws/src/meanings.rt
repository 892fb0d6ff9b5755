//! The meaning of the program's commands, replies and records: each is one of the model, and each
//! of the model is one of the program.

ghost use Rattle.std.specs.Prelude.{
  ◌≡◌,
  ◌↔◌,
  ◌∷◌,
  ℕ,
  List,
  [],
  Some,
  None,
  codes,
  option_map,
};
ghost use Rattle.std.specs.FinMap.{insert};
ghost use Rattle.std.specs.declared.alloc.Global.{Global};
ghost use Rattle.std.specs.declared.boxed.Box.{Box};
ghost use Rattle.flat_model.specs.Command as model;
ghost use Rattle.flat_model.specs.CommandText.{command_text};
ghost use Rattle.flat_model.specs.Inverse.{back, place_all};
ghost use Rattle.flat_model.specs.Path.{Path};
ghost use Rattle.flat_model.specs.Replies.{refusal_text, reply_bytes};
ghost use Rattle.flat_model.specs.State.{State};
ghost use Rattle.flat_model.specs.Step.{after, after_refusal, home_of, set_peaks};
ghost use Rattle.group_tree.specs.declared.attr.Attr.{Attr};
ghost use Rattle.group_tree.specs.declared.attr.Limit.{Limit};
ghost use Rattle.group_tree.specs.declared.attr.Limit.TheVariants as limit;
ghost use Rattle.group_tree.specs.declared.attr.LimitFile.{LimitFile};
ghost use Rattle.group_tree.specs.declared.attr.LimitFile.TheVariants as limit_file;
ghost use Rattle.group_tree.specs.Flat.{group_of, limit_of, limit_file_of};
ghost use Rattle.interface_files.specs.declared.file.File.TheVariants as file;
ghost use Rattle.undo_journal.specs.declared.command.Command.{Command};
ghost use Rattle.undo_journal.specs.declared.command.Command.TheVariants as command;
ghost use Rattle.undo_journal.specs.declared.inverse.Inverse.TheVariants as kept;
ghost use Rattle.undo_journal.specs.declared.reply.Refusal.{Refusal};
ghost use Rattle.undo_journal.specs.declared.reply.Refusal.TheVariants as refusal;
ghost use Rattle.undo_journal.specs.declared.reply.Reply.{Reply};
ghost use Rattle.undo_journal.specs.declared.reply.Reply.TheVariants as reply;
ghost use Rattle.undo_journal.specs.CommandMeaning.{command_of, inverse_of, refusal_of, reply_of};

/// Different commands, refusals or replies over one allocator have different meanings.
pub fn meanings_are_apart()
    ensures commands { (c d : Command Global) → command_of c ≡ command_of d → c ≡ d }
    ensures refusals { (r q : Refusal Global) → refusal_of r ≡ refusal_of q → r ≡ q }
    ensures replies { (r q : Reply Global) → reply_of r ≡ reply_of q → r ≡ q }
    ensures memory { (r : Reply Global) → (reply_of r ≡ None) ↔ (r ≡ reply.OutOfMemory) }
{}

/// Each command, refusal and reply of the model is the meaning of one of the program.
pub fn everything_is_meant()
    ensures commands { (m : model.Command) → (c : Command Global) × (command_of c ≡ m) }
    ensures refusals { (m : model.Refusal) → (r : Refusal Global) × (refusal_of r ≡ m) }
    ensures replies { (m : model.Reply) → (r : Reply Global) × (reply_of r ≡ Some m) }
{}

/// The line of each command.
pub fn commands_by_their_lines()
    ensures make { command_text (command_of {A = Global} (command.MakeGroup (codes "a" ∷ [])))
        ≡ codes "mkdir /a" }
    ensures remove { command_text (command_of {A = Global} (command.RemoveGroup (codes "a" ∷ [])))
        ≡ codes "rmdir /a" }
    ensures fork { command_text (command_of {A = Global} (command.Fork 1 2)) ≡ codes "fork 1 2" }
    ensures exit { command_text (command_of {A = Global} (command.Exit 2)) ≡ codes "exit 2" }
    ensures move_to { command_text (command_of {A = Global} (command.Move (codes "a" ∷ []) 2))
        ≡ codes "write /a cgroup.procs 2" }
    ensures pids { command_text (command_of {A = Global} (command.SetLimit (codes "a" ∷ []) limit_file.PidsMax (limit.At 3)))
        ≡ codes "write /a pids.max 3" }
    ensures depth { command_text (command_of {A = Global} (command.SetLimit (codes "a" ∷ []) limit_file.MaxDepth limit.Unlimited))
        ≡ codes "write /a cgroup.max.depth max" }
    ensures kill { command_text (command_of {A = Global} (command.Kill (codes "a" ∷ [])))
        ≡ codes "write /a cgroup.kill 1" }
    ensures show { command_text (command_of {A = Global} (command.Show (codes "a" ∷ []) file.PidsCurrent))
        ≡ codes "cat /a pids.current" }
    ensures locate { command_text (command_of {A = Global} (command.Locate 2)) ≡ codes "where 2" }
    ensures undo { command_text (command_of {A = Global} command.Undo) ≡ codes "undo" }
{}

/// The words of each refusal.
pub fn refusals_by_their_words()
    ensures exists { refusal_text (refusal_of {A = Global} refusal.Exists) ≡ codes "exists" }
    ensures no_group { refusal_text (refusal_of {A = Global} (refusal.NoGroup (codes "a" ∷ [])))
        ≡ codes "nogroup /a" }
    ensures descendants { refusal_text (refusal_of {A = Global} (refusal.Descendants (codes "a" ∷ [])))
        ≡ codes "descendants /a" }
    ensures depth { refusal_text (refusal_of {A = Global} (refusal.Depth (codes "a" ∷ [])))
        ≡ codes "depth /a" }
    ensures no_slot { refusal_text (refusal_of {A = Global} refusal.NoSlot) ≡ codes "noslot" }
    ensures root { refusal_text (refusal_of {A = Global} refusal.RootFixed) ≡ codes "rootfixed" }
    ensures children { refusal_text (refusal_of {A = Global} refusal.HasChildren)
        ≡ codes "haschildren" }
    ensures processes { refusal_text (refusal_of {A = Global} refusal.HasProcesses)
        ≡ codes "hasprocesses" }
    ensures no_process { refusal_text (refusal_of {A = Global} (refusal.NoProcess 2))
        ≡ codes "noprocess 2" }
    ensures pid_in_use { refusal_text (refusal_of {A = Global} (refusal.PidInUse 2))
        ≡ codes "pidinuse 2" }
    ensures pids { refusal_text (refusal_of {A = Global} (refusal.PidsMax (codes "a" ∷ [])))
        ≡ codes "pidsmax /a" }
    ensures no_file { refusal_text (refusal_of {A = Global} refusal.NoFile) ≡ codes "nofile" }
    ensures direction { refusal_text (refusal_of {A = Global} refusal.NotReadable)
        ≡ codes "direction" }
{}

/// The output for the seventh command by each reply. Out of memory has none.
pub fn replies_by_their_answers()
    ensures done { option_map (reply_bytes 7) (reply_of {A = Global} reply.Done)
        ≡ Some (codes "7 ok\n") }
    ensures text { option_map (reply_bytes 7) (reply_of {A = Global} (reply.Text (codes "0::/a\n")))
        ≡ Some (codes "7 ok\n| 0::/a\n") }
    ensures undone { option_map (reply_bytes 7) (reply_of {A = Global} (reply.Undone (command.Exit 2)))
        ≡ Some (codes "7 ok\n| exit 2\n") }
    ensures refused { option_map (reply_bytes 7) (reply_of {A = Global} (reply.Refused refusal.Exists))
        ≡ Some (codes "7 refused exists\n") }
    ensures nothing { option_map (reply_bytes 7) (reply_of {A = Global} reply.NothingToUndo)
        ≡ Some (codes "7 refused nothing\n") }
    ensures memory { option_map (reply_bytes 7) (reply_of {A = Global} reply.OutOfMemory) ≡ None }
{}

/// What each record restores. A new group is removed. A new process ends. A moved process returns
/// to its old group. Both of these restore the peaks along the group that the process leaves. A
/// limit gets its old value. A removed group, an exited process and killed processes return to
/// where they were. A fork is no longer counted.
pub fn records_by_what_they_give_back()
    ensures made { (s : State) (p : Path)
        → back (inverse_of {A = Global} (kept.Made p)) s ≡ after s (model.RemoveGroup p) }
    ensures removed { (s : State) (p : Path) (x : Box Attr Global)
        → back (inverse_of {A = Global} (kept.Removed p x)) s
        ≡ record s { groups = insert s.groups p (group_of x.value) } }
    ensures forked { (s : State) (pid : ℕ) (peaks : List ℕ)
        → back (inverse_of {A = Global} (kept.Forked pid peaks)) s
        ≡ set_peaks (home_of s pid) peaks (after s (model.Exit pid)) }
    ensures exited { (s : State) (pid : ℕ) (p : Path)
        → back (inverse_of {A = Global} (kept.Exited pid p)) s
        ≡ record s { home = insert s.home pid p } }
    ensures moved { (s : State) (pid : ℕ) (p : Path) (peaks : List ℕ)
        → back (inverse_of {A = Global} (kept.Moved pid p peaks)) s
        ≡ set_peaks (home_of s pid) peaks (record s { home = insert s.home pid p }) }
    ensures limited { (s : State) (p : Path) (f : LimitFile) (value : Limit)
        → back (inverse_of {A = Global} (kept.Limited p f value)) s
        ≡ after s (model.SetLimit p (limit_file_of f) (limit_of value)) }
    ensures counted { (s : State) (a : Path)
        → back (inverse_of {A = Global} (kept.Counted a)) (after_refusal s (model.OverPidsMax a))
        ≡ s }
    ensures killed { (s : State) (lost : List (ℕ × Path))
        → back (inverse_of {A = Global} (kept.Killed lost)) s
        ≡ record s { home = place_all lost s.home } }
{}
