//! The laws of the texts of values, files and commands. Each function is proof only: its contract
//! is a law.

ghost use Rattle.std.specs.Prelude.{
  ◌≡◌,
  ◌↔◌,
  ℕ,
  false,
  List,
  Some,
  Result,
  Ok,
  Err,
  codes,
  decimal,
  flat_map,
  map,
};
ghost use Rattle.std.specs.List.{AllByRecursion};
ghost use Rattle.flat_model.specs.Refuse.{map_ok};
ghost use Rattle.flat_model.specs.Path.{Path};
ghost use Rattle.flat_model.specs.State.{Limit};
ghost use Rattle.flat_model.specs.File.{LimitFile, File, file_name, file_named, readable, writable};
ghost use Rattle.flat_model.specs.FileText.{line, limit_text};
ghost use Rattle.flat_model.specs.Values.{trimmed, read_pid, read_limit, read_kill};
ghost use Rattle.flat_model.specs.Command.{Command};
ghost use Rattle.flat_model.specs.CommandText.{
  IsPid,
  IsLimit,
  IsLimitText,
  IsSayable,
  command_text,
};
ghost use Rattle.flat_model.specs.Trace.{
  BadDirection,
  Run,
  write_of,
  show_of,
  read_line,
  read_trace,
};

/// A reading that is mapped has a value exactly if the reading has one, which is mapped, and the same fault otherwise.
pub fn readings_are_mapped()
    ensures read { (f : ℕ → List ℕ) (r : Result ℕ Path) (t : List ℕ)
        → (map_ok f r ≡ Ok t) ↔ ((n : ℕ) × (r ≡ Ok n) × (f n ≡ t)) }
    ensures fault { (f : ℕ → List ℕ) (r : Result ℕ Path) (p : Path) → (map_ok f r ≡ Err p) ↔ (r ≡ Err p) }
{}

/// A pid is read from its decimal digits, with or without spaces at both ends, and from no other
/// text.
pub fn pid_is_read_back()
    ensures read { (n : ℕ) → IsPid n → read_pid (decimal n) ≡ Ok n }
    ensures only { (t : List ℕ) (n : ℕ) → read_pid t ≡ Ok n → IsPid n × (trimmed t ≡ decimal n) }
{}

/// The text for `cgroup.kill` is `1`, with or without spaces at both ends, and no other.
pub fn kill_is_one()
    ensures { (t : List ℕ) (n : ℕ) → read_kill t ≡ Ok n → trimmed t ≡ codes "1" }
{}

/// A limit is read from the text that its file shows, with or without spaces at both ends, and for
/// no limit of the hierarchy also from the greatest number; from no other text. Each limit that is
/// read is one that the file can have.
pub fn limit_is_read_back()
    ensures read { (file : LimitFile) (l : Limit) → IsLimit file l
        → read_limit file (limit_text l) ≡ Ok l }
    ensures only { (file : LimitFile) (t : List ℕ) (l : Limit) → read_limit file t ≡ Ok l
        → IsLimit file l }
    ensures text { (file : LimitFile) (t : List ℕ) (l : Limit) → read_limit file t ≡ Ok l
        → IsLimitText file l (trimmed t) }
{}

/// A file is found by its name alone.
pub fn file_is_read_back()
    ensures read { (f : File) → file_named (file_name f) ≡ Some f }
    ensures only { (name : List ℕ) (f : File) → file_named name ≡ Some f → name ≡ file_name f }
{}

/// A write is refused for its direction exactly if the file cannot be written, whatever the value;
/// `cat` exactly if it cannot be read.
pub fn direction_is_of_the_file()
    ensures written { (p : Path) (file : File) (value : List ℕ)
        → (write_of p file value ≡ Err BadDirection) ↔ (writable file ≡ false) }
    ensures shown { (p : Path) (file : File)
        → (show_of p file ≡ Err BadDirection) ↔ (readable file ≡ false) }
{}

/// The text of a command is read as that command. No two commands have the same text. Each command
/// that is read has a text.
pub fn command_is_read_back()
    ensures read { (c : Command) → IsSayable c → read_line (command_text c) ≡ Run c }
    ensures apart { (c d : Command) → IsSayable c → IsSayable d → command_text c ≡ command_text d
        → c ≡ d }
    ensures only { (t : List ℕ) (c : Command) → read_line t ≡ Run c → IsSayable c }
{}

/// The texts of commands, each with a line feed, are a trace of these commands.
pub fn trace_is_read_back()
    ensures { (cs : List Command) → AllByRecursion IsSayable cs
        → read_trace (flat_map (λ c. line (command_text c)) cs) ≡ map Run cs }
{}
