//! What a command line requests, and the exit status.

ghost use Rattle.std.specs.Prelude.{◌≡◌, List, [], ◌∷◌, true, false, Some, None, Ok, Err, codes};
ghost use Rattle.clap.specs.Words.{Text, fault_of};
ghost use Rattle.clap.specs.declared.error.kind.ErrorKind.TheVariants as kind;
ghost use Rattle.program_io.specs.Clusters.{asks_text, cluster_first, is_cluster};
ghost use Rattle.program_io.specs.declared.arguments.LineFault.TheVariants as line;
ghost use Rattle.shell_main.specs.declared.fault.ShellFault.{ShellFault};
ghost use Rattle.shell_main.specs.declared.program.ProgramFault.TheVariants as program;
ghost use Rattle.shell_main.specs.ShellArguments.{AsksShell, Requests, RequestsText, app, file_in, no_undo_in, options_in, strict_in};
ghost use Rattle.shell_main.specs.Program.{status_of};

/// Without words a shell is requested; `--` alone changes nothing. One word names a file; `--strict` requests a strict shell,
/// `--no-undo` one without a history, in any order; `--help` help and `--version` the version. An unknown option,
/// `--workers 3`, a second file, and a second `--strict` or `--no-undo` are bad lines. So is a cluster of flags, as `-V1` or
/// `-hV`, unless help or the version is requested before it.
pub fn words_that_ask()
    ensures none { fault_of app [] ≡ [] }
    ensures dashes { fault_of app (codes "--" ∷ []) ≡ [] }
    ensures help { fault_of app (codes "--help" ∷ []) ≡ kind.DisplayHelp ∷ [] }
    ensures help_alone { AsksShell (codes "--help" ∷ []) (Err line.Bad) → ⊥ }
    ensures version { fault_of app (codes "--version" ∷ []) ≡ kind.DisplayVersion ∷ [] }
    ensures file { (fault_of app (codes "x" ∷ []) ≡ []) × (file_in (codes "x" ∷ []) ≡ Some (codes "x")) }
    ensures no_file { file_in [] ≡ None }
    ensures strict { (fault_of app (codes "--strict" ∷ []) ≡ []) × (strict_in (codes "--strict" ∷ []) ≡ true) }
    ensures lenient { strict_in (codes "x" ∷ []) ≡ false }
    ensures no_undo { (fault_of app (codes "--no-undo" ∷ []) ≡ []) × (no_undo_in (codes "--no-undo" ∷ []) ≡ true) }
    ensures history { options_in [] ≡ record { is_strict = false; keeps_history = true } }
    ensures all { (fault_of app (codes "--no-undo" ∷ codes "x" ∷ codes "--strict" ∷ []) ≡ [])
        × (file_in (codes "--no-undo" ∷ codes "x" ∷ codes "--strict" ∷ []) ≡ Some (codes "x"))
        × (options_in (codes "--no-undo" ∷ codes "x" ∷ codes "--strict" ∷ []) ≡ record { is_strict = true; keeps_history = false }) }
    ensures unknown { AsksShell (codes "--bogus" ∷ []) (Err line.Bad) }
    ensures workers { AsksShell (codes "--workers" ∷ codes "3" ∷ []) (Err line.Bad) }
    ensures second { AsksShell (codes "x" ∷ codes "y" ∷ []) (Err line.Bad) }
    ensures twice { AsksShell (codes "--strict" ∷ codes "--strict" ∷ []) (Err line.Bad) }
    ensures again { AsksShell (codes "--no-undo" ∷ codes "--no-undo" ∷ []) (Err line.Bad) }
    ensures cluster { AsksShell (codes "-V1" ∷ []) (Err line.Bad) }
    ensures flags { AsksShell (codes "--strict" ∷ codes "-hV" ∷ []) (Err line.Bad) }
    ensures no_version { RequestsText (codes "-V1" ∷ []) → ⊥ }
    ensures short_version { Requests kind.DisplayVersion (codes "-V" ∷ codes "-V1" ∷ []) }
    ensures ignored { Requests kind.DisplayHelp (codes "--help" ∷ codes "-V1" ∷ []) }
    ensures dashed_file { (fault_of app (codes "--" ∷ codes "-V1" ∷ []) ≡ []) × (file_in (codes "--" ∷ codes "-V1" ∷ []) ≡ Some (codes "-V1")) }
{}

/// A cluster is one dash and two bytes or more after it. It comes first if no word before it asks for a text; a word that
/// neither asks for a text nor is a cluster changes nothing.
pub fn clusters_of_flags()
    ensures flags { is_cluster (codes "-hV") ≡ true }
    ensures digit { is_cluster (codes "-V1") ≡ true }
    ensures one_flag { is_cluster (codes "-V") ≡ false }
    ensures dash { is_cluster (codes "-") ≡ false }
    ensures empty { is_cluster [] ≡ false }
    ensures long { is_cluster (codes "--V") ≡ false }
    ensures word { is_cluster (codes "V1x") ≡ false }
    ensures asks { (asks_text (codes "-h") ≡ true) × (asks_text (codes "-V") ≡ true) × (asks_text (codes "--help") ≡ true) × (asks_text (codes "--version") ≡ true) }
    ensures no_request { (asks_text (codes "-x") ≡ false) × (asks_text (codes "--strict") ≡ false) × (asks_text (codes "help") ≡ false) × (asks_text (codes "-V1") ≡ false) }
    ensures none { cluster_first [] ≡ false }
    ensures first { (words : List Text) → cluster_first (codes "-V1" ∷ words) ≡ true }
    ensures second { (words : List Text) → cluster_first (codes "--strict" ∷ codes "-hV" ∷ words) ≡ true }
    ensures late { (words : List Text) → cluster_first (codes "x" ∷ codes "--help" ∷ words) ≡ false }
    ensures passed { (word : Text) (words : List Text) → asks_text word ≡ false → is_cluster word ≡ false
        → cluster_first (word ∷ words) ≡ cluster_first words }
{}

/// The program's status is 0 if everything was done, 2 for a bad command line, 141 for a closed pipe, and 1 for any other
/// fault.
pub fn statuses()
    ensures done { (u : Unit {0}) → status_of (Ok u) ≡ 0 }
    ensures bad_line { status_of (Err (program.Line line.Bad)) ≡ 2 }
    ensures memory { status_of (Err (program.Line line.OutOfMemory)) ≡ 1 }
    ensures shell { (f : ShellFault) → status_of (Err (program.Shell f)) ≡ 1 }
    ensures opening { status_of (Err program.Open) ≡ 1 }
    ensures pipe { status_of (Err program.ClosedPipe) ≡ 141 }
{}
