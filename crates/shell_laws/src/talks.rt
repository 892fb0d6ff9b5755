//! What a talk answers line by line, and what it counts.

ghost use Rattle.std.specs.Prelude.{◌≡◌, ◌↔◌, ◌+◌, ◌<◌, ◌^◌, ◌++◌, ℕ, List, cond, codes};
ghost use Rattle.flat_model.specs.Command.{Command, NothingToUndo, Undo};
ghost use Rattle.flat_model.specs.Machine.{new_machine, tick};
ghost use Rattle.flat_model.specs.Replies.{command_count, fault_bytes, is_refused, refused_count, reply_bytes};
ghost use Rattle.flat_model.specs.Trace.{Fault, Run, Skip, TextFault, read_line, read_trace};
ghost use Rattle.sessions.specs.SessionMeaning.{slots};
ghost use Rattle.trace_talk.specs.Points.{IsSaid, Point, number_max, point_after, start_point, summary_of, without_past};

/// A skipped line is not answered and changes nothing. A fault and a command are answered under the next number, and counted;
/// the machine runs the command.
pub fn lines_of_a_talk()
    ensures skipped { (p q : Point) (before after : List ℕ)
        → IsSaid p Skip before after q ↔ ((after ≡ before) × (q ≡ p)) }
    ensures fault { (p q : Point) (f : TextFault) (before after : List ℕ)
        → IsSaid p (Fault f) before after q ↔ ((after ≡ before ++ fault_bytes (p.commands + 1) f)
        × (q ≡ record { machine = p.machine; commands = p.commands + 1; refused = p.refused + 1 })) }
    ensures command { (p q : Point) (c : Command) (before after : List ℕ)
        → IsSaid p (Run c) before after q ↔ ((after ≡ before ++ reply_bytes (p.commands + 1) (tick slots p.machine c).1)
        × (q ≡ record {
          machine = (tick slots p.machine c).0;
          commands = p.commands + 1;
          refused = p.refused + cond (is_refused (tick slots p.machine c).1) 1 0;
        })) }
    ensures first { (before after : List ℕ) (q : Point)
        → IsSaid start_point (read_line (codes "undo")) before after q
        → (after ≡ before ++ codes "1 refused nothing\n") × (q ≡ record { machine = new_machine; commands = 1; refused = 1 }) }
{}

/// The summary of a whole trace counts its numbered lines, and those that are refused.
pub fn summaries_of_traces()
    ensures commands { (text : List ℕ) → (summary_of (point_after start_point (read_trace text))).commands ≡ command_count (read_trace text) }
    ensures refused { (text : List ℕ) → (summary_of (point_after start_point (read_trace text))).refused ≡ refused_count slots (read_trace text) }
    ensures three { summary_of (point_after start_point (read_trace (codes "undo\n# a\nmkdir a\nexit x\n"))) ≡ record { commands = 3; refused = 3 } }
{}

/// A line can have a number exactly if 64 bits hold it.
pub fn numbers_of_lines()
    ensures greatest { number_max ≡ 18446744073709551615 }
    ensures next { (n : ℕ) → (n < number_max) ↔ (n + 1 < 2 ^ 64) }
{}

/// A talk without its past counts on, has the same groups and processes, and nothing to undo.
pub fn talks_without_a_past()
    ensures state { (p : Point) → (without_past p).machine.state ≡ p.machine.state }
    ensures undo { (p : Point) → (tick slots (without_past p).machine Undo).1 ≡ NothingToUndo }
    ensures counts { (p : Point) → summary_of (without_past p) ≡ summary_of p }
    ensures again { (p : Point) → without_past (without_past p) ≡ without_past p }
{}
