//! What a shell leaves compared with a replay, if the devices report their bytes.

ghost use Rattle.std.specs.Prelude.{
  ◌≡◌,
  ◌≤◌,
  ◌↔◌,
  ◌++◌,
  ◌∷◌,
  ℕ,
  Bool,
  true,
  false,
  List,
  [],
  Option,
  Some,
  Result,
  Ok,
  Err,
  codes,
  length,
};
ghost use Rattle.flat_model.specs.Replies.{is_fault};
ghost use Rattle.flat_model.specs.Trace.{Line, read_trace};
ghost use Rattle.trace_talk.specs.declared.summary.Summary.{Summary};
ghost use Rattle.replay_main.specs.Replayed.{Replayed};
ghost use Rattle.shell_main.specs.declared.fault.ShellFault.{ShellFault};
ghost use Rattle.shell_main.specs.declared.fault.ShellFault.TheVariants as fault;
ghost use Rattle.shell_main.specs.declared.options.Options.{Options};
ghost use Rattle.shell_main.specs.Devices.{SinkState, SourceState};
ghost use Rattle.shell_main.specs.Forgetful.{output_of};
ghost use Rattle.shell_main.specs.Shelled.{Shelled, ShelledBy};
ghost use Rattle.shell_main.specs.WholeLines.{HasCommandsBeforeLast, HasNoFeed, ends_line};

/// For a source that a replay reads completely, a shell that no fault ends leaves exactly what the
/// replay leaves.
pub fn what_a_replay_says()
    ensures { (start : List ℕ) (source : SourceState) (before : Option (List ℕ)) (sink : SinkState) (summary : Summary)
        → length start ≤ 16777216
        → Shelled true (Some start) source before sink (Ok summary)
        ↔ Replayed (Some start) source.failed before sink.taken sink.failed sink.flushed (Ok summary) }
{}

/// Whatever the result of a shell, what it wrote is a prefix of the output for all that the source
/// had.
pub fn a_prefix_of_all_answers()
    ensures { (history : Bool) (start before : List ℕ) (source : SourceState) (sink : SinkState) (r : Result Summary ShellFault)
        → Shelled history (Some start) source (Some before) sink r
        → (front more : List ℕ) × (front ++ more ≡ output_of history start) × (sink.taken ≡ Some (before ++ front)) }
{}

/// The output for whole lines is a prefix of the output for them and whatever follows.
pub fn whole_lines_come_first()
    ensures { (history : Bool) (lines more : List ℕ) → ends_line lines ≡ true
        → (rest : List ℕ) × (output_of history (lines ++ more) ≡ output_of history lines ++ rest) }
{}

/// At a failed read, exactly the output for the whole lines that were read is flushed.
pub fn what_is_out_at_a_failed_read()
    ensures { (history failed : Bool) (start left before : List ℕ) (sink : SinkState)
        → Shelled history (Some start) (record { left = Some left; failed = failed }) (Some before) sink (Err fault.Read)
        → (lines line : List ℕ) × (start ≡ (lines ++ line) ++ left) × (ends_line lines ≡ true)
        × HasNoFeed line × (sink.taken ≡ Some (before ++ output_of history lines)) × (sink.flushed ≡ true) }
{}

/// What a strict shell leaves, a shell may leave, unless it stopped after a line that is not a command.
pub fn a_strict_shell_is_a_shell()
    ensures { (how : Options) (start before : Option (List ℕ)) (source : SourceState) (sink : SinkState) (r : Result Summary ShellFault)
        → ShelledBy how start source before sink r → (r ≡ Err fault.NotACommand → ⊥)
        → Shelled how.keeps_history start source before sink r }
{}

/// If a write of a strict shell failed, then what was written is the front of the output for some lines of the source, of
/// which at most the last is neither a command nor skipped.
pub fn a_strict_shell_passes_no_fault()
    ensures { (history : Bool) (start before : List ℕ) (source : SourceState) (sink : SinkState)
        → ShelledBy (record { is_strict = true; keeps_history = history }) (Some start) source (Some before) sink (Err fault.Write)
        → (lines unread front unwritten : List ℕ) × (start ≡ lines ++ unread) × HasCommandsBeforeLast lines
        × (output_of history lines ≡ front ++ unwritten) × (sink.taken ≡ Some (before ++ front)) }
{}

/// Texts of whole lines, by example.
pub fn whole_lines()
    ensures nothing { ends_line [] ≡ true }
    ensures two { ends_line (codes "undo\nundo\n") ≡ true }
    ensures blank { ends_line (codes "\n") ≡ true }
    ensures unended { ends_line (codes "undo\nundo") ≡ false }
{}

/// No line and any one line have no fault before the last; two lines of which the first is a fault have one.
pub fn commands_before_the_last()
    ensures none { HasCommandsBeforeLast [] }
    ensures one { (text : List ℕ) (line : Line) → read_trace text ≡ line ∷ [] → HasCommandsBeforeLast text }
    ensures two { (text : List ℕ) (first last : Line) → read_trace text ≡ first ∷ last ∷ [] → is_fault first ≡ true
        → HasCommandsBeforeLast text → ⊥ }
{}
