//! What a command line that requests something, or nothing, makes of the program.

ghost use Rattle.std.specs.Prelude.{◌≡◌, ◌≢◌, ◌⊎◌, ◌↔◌, ◌++◌, ℕ, Bool, true, false, List, [], ◌∷◌, Option, Some, None, Result, Ok, Err, codes};
ghost use Rattle.clap.specs.Words.{Text};
ghost use Rattle.program_io.specs.declared.arguments.LineFault.TheVariants as line;
ghost use Rattle.shell_main.specs.declared.fault.ShellFault.TheVariants as fault;
ghost use Rattle.shell_main.specs.declared.program.ProgramFault.{ProgramFault};
ghost use Rattle.shell_main.specs.declared.program.ProgramFault.TheVariants as program;
ghost use Rattle.shell_main.specs.Devices.{SinkState, SourceState};
ghost use Rattle.shell_main.specs.Forgetful.{output_of};
ghost use Rattle.shell_main.specs.Program.{EndsShell, status_of, told_apart};
ghost use Rattle.shell_main.specs.ShellArguments.{IsBad, Names};

/// An unknown option and a cluster of flags are bad lines. No words, a file, and a call for help or the version are not.
pub fn words_that_are_bad()
    ensures unknown { IsBad (codes "--bogus" ∷ []) }
    ensures cluster { IsBad (codes "-hV" ∷ []) }
    ensures nothing { IsBad [] → ⊥ }
    ensures file { IsBad (codes "x" ∷ []) → ⊥ }
    ensures help { IsBad (codes "--help" ∷ []) → ⊥ }
    ensures version { IsBad (codes "--version" ∷ []) → ⊥ }
    ensures short_version { IsBad (codes "-V" ∷ codes "-V1" ∷ []) → ⊥ }
{}

/// A file is named by its word alone, after `--` also by one that looks like a cluster of flags. No words, help and the
/// version name none, and a bad line is not asked.
pub fn files_that_are_named()
    ensures file { (name : Option Text) → Names (codes "x" ∷ []) name ↔ (name ≡ Some (codes "x")) }
    ensures nothing { (name : Option Text) → Names [] name ↔ (name ≡ None) }
    ensures help { (name : Option Text) → Names (codes "--help" ∷ []) name ↔ (name ≡ None) }
    ensures dashed { (name : Option Text) → Names (codes "--" ∷ codes "-V1" ∷ []) name ↔ (name ≡ Some (codes "-V1")) }
    ensures bad { (name : Option Text) → Names (codes "--bogus" ∷ []) name → ⊥ }
    ensures cluster { (name : Option Text) → Names (codes "-V1" ∷ []) name → ⊥ }
{}

/// Without words and without a fault, the program has written the output for all of its input, and flushed it. A call for
/// help reads nothing. At a bad line nothing is read or written. The program that runs on given devices never ends by a
/// file that can't be opened or by a closed pipe: the caller reports these.
pub fn what_a_program_leaves()
    ensures done { (start before : List ℕ) (source : SourceState) (sink : SinkState) (u : Unit {0})
        → EndsShell [] (Some start) source (Some before) sink (Ok u)
        → (sink.taken ≡ Some (before ++ output_of true start)) × (sink.flushed ≡ true) }
    ensures help { (start : List ℕ) (before : Option (List ℕ)) (source : SourceState) (sink : SinkState) (u : Unit {0})
        → EndsShell (codes "--help" ∷ []) (Some start) source before sink (Ok u) → source.left ≡ Some start }
    ensures bad { (start before : List ℕ) (source : SourceState) (sink : SinkState) (r : Result (Unit {0}) ProgramFault)
        → EndsShell (codes "--bogus" ∷ []) (Some start) source (Some before) sink r
        → (source.left ≡ Some start) × (sink.taken ≡ Some before) }
    ensures refused { (start before : Option (List ℕ)) (source : SourceState) (sink : SinkState) (r : Result (Unit {0}) ProgramFault)
        → EndsShell (codes "--bogus" ∷ []) start source before sink r
        → (r ≡ Err (program.Line line.Bad)) ⊎ (r ≡ Err (program.Line line.OutOfMemory)) }
    ensures cluster { (start before : List ℕ) (source : SourceState) (sink : SinkState) (r : Result (Unit {0}) ProgramFault)
        → EndsShell (codes "-V1" ∷ []) (Some start) source (Some before) sink r
        → (source.left ≡ Some start) × (sink.taken ≡ Some before)
        × ((r ≡ Err (program.Line line.Bad)) ⊎ (r ≡ Err (program.Line line.OutOfMemory))) }
    ensures opening { (words : List Text) (start before : Option (List ℕ)) (source : SourceState) (sink : SinkState)
        → EndsShell words start source before sink (Err program.Open) → ⊥ }
    ensures pipe { (words : List Text) (start before : Option (List ℕ)) (source : SourceState) (sink : SinkState)
        → EndsShell words start source before sink (Err program.ClosedPipe) → ⊥ }
{}

/// A closed pipe is reported exactly at a failed write. Every other result stays, and so does each if the pipe is open.
pub fn pipes_that_are_closed()
    ensures told { (closed : Bool) (r : Result (Unit {0}) ProgramFault) → r ≢ Err program.ClosedPipe
        → (status_of (told_apart closed r) ≡ 141) ↔ ((closed ≡ true) × (r ≡ Err (program.Shell fault.Write))) }
    ensures others { (closed : Bool) (r : Result (Unit {0}) ProgramFault) → r ≢ Err (program.Shell fault.Write)
        → told_apart closed r ≡ r }
    ensures open_pipe { (r : Result (Unit {0}) ProgramFault) → told_apart false r ≡ r }
{}
