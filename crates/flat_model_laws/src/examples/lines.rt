//! Worked examples of the lines of a trace, each with its meaning.

ghost use Rattle.std.specs.Prelude.{◌≡◌, [], ◌∷◌, codes, replicate};
ghost use Rattle.flat_model.specs.Command.{Fork};
ghost use Rattle.flat_model.specs.Trace.{
  lines_in,
  read_line,
  Skip,
  Run,
  Fault,
  BadSyntax,
  BadPath,
  BadFile,
  BadDirection,
  BadValue,
};

/// A line feed ends a line. What follows the last one is a line if it isn't empty.
pub fn lines_of_a_text()
    ensures nothing { lines_in [] ≡ [] }
    ensures line_feed { lines_in (codes "\n") ≡ [] ∷ [] }
    ensures ended { lines_in (codes "a\n") ≡ codes "a" ∷ [] }
    ensures unended { lines_in (codes "a") ≡ codes "a" ∷ [] }
    ensures empty_between { lines_in (codes "a\n\nb") ≡ codes "a" ∷ [] ∷ codes "b" ∷ [] }
    ensures empty_last { lines_in (codes "a\n\n") ≡ codes "a" ∷ [] ∷ [] }
    ensures other_blanks { lines_in (codes "a b\r\n\tc") ≡ codes "a b\r" ∷ codes "\tc" ∷ [] }
{}

/// The first fault of a line: words, path, file, direction, value.
pub fn lines_refused()
    ensures path_first { read_line (codes "write a nofile x") ≡ Fault BadPath }
    ensures then_file { read_line (codes "write /a foo x") ≡ Fault BadFile }
    ensures then_direction { read_line (codes "write /a pids.current x") ≡ Fault BadDirection }
    ensures then_value { read_line (codes "write /a pids.max x") ≡ Fault BadValue }
    ensures kill_is_not_read { read_line (codes "cat /a cgroup.kill") ≡ Fault BadDirection }
    ensures no_pid { read_line (codes "write / cgroup.procs 0") ≡ Fault BadValue }
    ensures unknown_word { read_line (codes "bogus") ≡ Fault BadSyntax }
    ensures word_missing { read_line (codes "mkdir") ≡ Fault BadSyntax }
    ensures comment { read_line (codes "# note") ≡ Skip }
{}

/// Blanks may come between words and at both ends. A line without words and a comment of any length
/// are skipped.
pub fn blanks_and_comments()
    ensures no_bytes { read_line (codes "") ≡ Skip }
    ensures blanks_alone { read_line (codes " \t\r") ≡ Skip }
    ensures comment_behind_blanks { read_line (codes " #undo") ≡ Skip }
    ensures long_comment { read_line (replicate 8193 0x23) ≡ Skip }
    ensures long_blanks { read_line (replicate 8193 0x20) ≡ Skip }
    ensures blanks_between { read_line (codes "\tfork  1 \t2\r") ≡ Run (Fork 1 2) }
{}
