//! The table of the interface files, computed.

ghost use Rattle.std.specs.Prelude.{
  ◌≡◌,
  ℕ,
  Bool,
  true,
  false,
  List,
  [],
  ◌∷◌,
  Option,
  Some,
  None,
  ◌++◌,
  codes,
  map,
};
ghost use Rattle.flat_model.specs.Path.{Path};
ghost use Rattle.flat_model.specs.State.{State, At};
ghost use Rattle.flat_model.specs.File.{
  File,
  PidsMax,
  MaxDescendants,
  MaxDepth,
  Procs,
  Events,
  Stat,
  LimitOf,
  KillFile,
  PidsCurrent,
  PidsPeak,
  PidsEvents,
  PidsEventsLocal,
  ValueKind,
  PidValue,
  LimitValue,
  KillValue,
  file_name,
  all_files,
  on_root,
  readable,
  writable,
  value_kind,
};
ghost use Rattle.flat_model.specs.Command.{Move, SetLimit, Kill, Show, NotReadable};
ghost use Rattle.flat_model.specs.Step.{refusal};
ghost use Rattle.flat_model.specs.Trace.{read_line, Run, Fault, BadDirection};

/// The table of files: the name, whether the root has it, whether it can be read, whether it can be
/// written.
pub fn table_of_files()
    ensures { map {B = List ℕ × Bool × Bool × Bool}
        (λ f. (file_name f, on_root f, readable f, writable f)) all_files
        ≡ (codes "cgroup.procs", true, true, true)
        ∷ (codes "cgroup.events", false, true, false)
        ∷ (codes "cgroup.stat", true, true, false)
        ∷ (codes "cgroup.max.descendants", true, true, true)
        ∷ (codes "cgroup.max.depth", true, true, true)
        ∷ (codes "cgroup.kill", false, false, true)
        ∷ (codes "pids.max", false, true, true)
        ∷ (codes "pids.current", false, true, false)
        ∷ (codes "pids.peak", false, true, false)
        ∷ (codes "pids.events", false, true, false)
        ∷ (codes "pids.events.local", false, true, false)
        ∷ [] }
{}

/// What is written to each file: a pid, one of the three limits, or the 1 of a kill.
pub fn kinds_of_values()
    ensures { map {B = List ℕ × Option ValueKind} (λ f. (file_name f, value_kind f)) all_files
        ≡ (codes "cgroup.procs", Some PidValue)
        ∷ (codes "cgroup.events", None)
        ∷ (codes "cgroup.stat", None)
        ∷ (codes "cgroup.max.descendants", Some (LimitValue MaxDescendants))
        ∷ (codes "cgroup.max.depth", Some (LimitValue MaxDepth))
        ∷ (codes "cgroup.kill", Some KillValue)
        ∷ (codes "pids.max", Some (LimitValue PidsMax))
        ∷ (codes "pids.current", None)
        ∷ (codes "pids.peak", None)
        ∷ (codes "pids.events", None)
        ∷ (codes "pids.events.local", None)
        ∷ [] }
{}

/// The command or fault of a line that writes 1 to a file, and of a line that shows it, for each
/// file.
pub fn lines_of_files()
    ensures written { map (λ f. read_line (codes "write /a " ++ file_name f ++ codes " 1")) all_files
        ≡ Run (Move (codes "a" ∷ []) 1)
        ∷ Fault BadDirection
        ∷ Fault BadDirection
        ∷ Run (SetLimit (codes "a" ∷ []) MaxDescendants (At 1))
        ∷ Run (SetLimit (codes "a" ∷ []) MaxDepth (At 1))
        ∷ Run (Kill (codes "a" ∷ []))
        ∷ Run (SetLimit (codes "a" ∷ []) PidsMax (At 1))
        ∷ Fault BadDirection
        ∷ Fault BadDirection
        ∷ Fault BadDirection
        ∷ Fault BadDirection
        ∷ [] }
    ensures shown { map (λ f. read_line (codes "cat /a " ++ file_name f)) all_files
        ≡ Run (Show (codes "a" ∷ []) Procs)
        ∷ Run (Show (codes "a" ∷ []) Events)
        ∷ Run (Show (codes "a" ∷ []) Stat)
        ∷ Run (Show (codes "a" ∷ []) (LimitOf MaxDescendants))
        ∷ Run (Show (codes "a" ∷ []) (LimitOf MaxDepth))
        ∷ Fault BadDirection
        ∷ Run (Show (codes "a" ∷ []) (LimitOf PidsMax))
        ∷ Run (Show (codes "a" ∷ []) PidsCurrent)
        ∷ Run (Show (codes "a" ∷ []) PidsPeak)
        ∷ Run (Show (codes "a" ∷ []) PidsEvents)
        ∷ Run (Show (codes "a" ∷ []) PidsEventsLocal)
        ∷ [] }
{}

/// No command shows `cgroup.kill`, whether the group exists or not.
pub fn kill_file_is_not_shown()
    ensures { (slots : ℕ) (s : State) (p : Path)
        → refusal slots s (Show p KillFile) ≡ Some NotReadable }
{}
