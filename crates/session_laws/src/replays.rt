//! The laws of the definitions of `replay_main`: of a replay, of the program and of its command line, if the devices report
//! their bytes.

pub mod scripts;

ghost use Rattle.std.specs.Prelude.{
  ◌≡◌,
  ◌≢◌,
  ◌≤◌,
  ◌⊎◌,
  ◌↔◌,
  ◌++◌,
  ◌∷◌,
  ◌+◌,
  ℕ,
  Bool,
  true,
  false,
  List,
  [],
  Option,
  Some,
  None,
  Ok,
  Err,
  codes,
  length,
};
ghost use Rattle.std.specs.declared.alloc.Global.{Global};
ghost use Rattle.std.specs.IoError.{error_kind};
ghost use Rattle.std.specs.Vec.Iter.{into_iter_items, into_iter_len};
ghost use Rattle.std.specs.declared.io.Error.{Error};
ghost use Rattle.std.specs.declared.io.ErrorKind.TheVariants as io_kind;
ghost use Rattle.std.specs.declared.string.String.{String};
ghost use Rattle.std.specs.declared.vec.IntoIter.{IntoIter};
ghost use Rattle.std.specs.declared.vec.Vec.{Vec};
ghost use Rattle.clap.specs.Words.{IsAmong, Text, fault_of};
ghost use Rattle.clap.specs.declared.error.kind.ErrorKind.{ErrorKind};
ghost use Rattle.clap.specs.declared.error.kind.ErrorKind.TheVariants as kind;
ghost use Rattle.flat_model.specs.Trace.{read_trace};
ghost use Rattle.flat_model.specs.Replies.{answers, command_count, refused_count};
ghost use Rattle.replay_main.specs.declared.arguments.Ask.TheVariants as ask;
ghost use Rattle.program_io.specs.declared.arguments.LineFault.{LineFault};
ghost use Rattle.program_io.specs.declared.arguments.LineFault.TheVariants as line;
ghost use Rattle.program_io.specs.declared.device.DeviceFault.{DeviceFault};
ghost use Rattle.replay_main.specs.declared.fault.ReplayFault.{ReplayFault};
ghost use Rattle.replay_main.specs.declared.fault.ReplayFault.TheVariants as fault;
ghost use Rattle.replay_main.specs.declared.program.ProgramFault.TheVariants as program;
ghost use Rattle.trace_talk.specs.declared.summary.Summary.{Summary};
ghost use Rattle.sessions.specs.SessionMeaning.{slots};
ghost use Rattle.replay_main.specs.ReplayArguments.{
  AsksHelp,
  AsksReplay,
  AsksReplayBy,
  app,
  digit_said,
  rehearsal_in,
  rehearsal_said,
  workers_in,
  workers_said,
};
ghost use Rattle.program_io.specs.Arguments.{Collects};
ghost use Rattle.program_io.specs.Clusters.{cluster_first};
ghost use Rattle.program_io.specs.Device.{TakesFront, WholeWrite};
ghost use Rattle.replay_main.specs.WholeInput.{WholeRead};
ghost use Rattle.replay_main.specs.ReplayProgram.{EndsReplay, status_of};
ghost use Rattle.replay_main.specs.Replayed.{EndsWork, IsAnswered, Replayed};

/// If source and sink report their bytes, a replay that succeeded has appended to the sink exactly the output for all that
/// the source had, and flushed it. Its two counts are those of that trace, which has at most 16,777,216 bytes. No read and
/// no write failed.
pub fn answers_that_are_told()
    ensures exactly { (left before : List ℕ) (after : Option (List ℕ)) (read_failed write_failed flushed : Bool) (summary : Summary)
        → Replayed (Some left) read_failed (Some before) after write_failed flushed (Ok summary)
        ↔ ((length left ≤ 16777216) × (after ≡ Some (before ++ answers slots left))
        × (summary.commands ≡ command_count (read_trace left))
        × (summary.refused ≡ refused_count slots (read_trace left))
        × (read_failed ≡ false) × (write_failed ≡ false) × (flushed ≡ true)) }
    ensures once { (left before : List ℕ) (after again : Option (List ℕ)) (read_failed write_failed flushed : Bool) (summary other : Summary)
        → Replayed (Some left) read_failed (Some before) after write_failed flushed (Ok summary)
        → Replayed (Some left) read_failed (Some before) again write_failed flushed (Ok other)
        → (after ≡ again) × (summary ≡ other) }
    ensures bytes { (trace bytes : List ℕ) (summary : Summary)
        → IsAnswered trace bytes summary ↔ ((bytes ≡ answers slots trace)
        × (summary.commands ≡ command_count (read_trace trace))
        × (summary.refused ≡ refused_count slots (read_trace trace))) }
{}

/// A replay of three lines into a sink that has one byte already.
pub fn worked_replay()
    ensures { Replayed (Some (codes "mkdir /a\nundo\nundo\n")) false (Some (codes "x"))
        (Some (codes "x1 ok\n2 ok\n| mkdir /a\n3 refused nothing\n")) false true
        (Ok (record { commands = 3; refused = 1 })) }
{}

/// After a fault of writing, a prefix of the output is appended to the sink. After any other fault the sink is unchanged,
/// and no write failed. Only a fault of reading says that a read failed. A trace is too long exactly if it has more than
/// 16,777,216 bytes.
pub fn replays_that_ended()
    ensures write { (left before : List ℕ) (after : Option (List ℕ)) (read_failed write_failed flushed : Bool)
        → Replayed (Some left) read_failed (Some before) after write_failed flushed (Err fault.Write)
        ↔ ((length left ≤ 16777216)
        × ((front rest : List ℕ) × (front ++ rest ≡ answers slots left)
        × (after ≡ Some (before ++ front)))
        × (read_failed ≡ false) × (write_failed ≡ true)) }
    ensures read { (left before after : Option (List ℕ)) (read_failed write_failed flushed : Bool)
        → Replayed left read_failed before after write_failed flushed (Err fault.Read)
        ↔ ((after ≡ before) × (read_failed ≡ true) × (write_failed ≡ false)) }
    ensures too_long { (left : List ℕ) (before after : Option (List ℕ)) (read_failed write_failed flushed : Bool)
        → Replayed (Some left) read_failed before after write_failed flushed (Err fault.InputTooLong)
        ↔ ((16777217 ≤ length left) × (after ≡ before) × (read_failed ≡ false)
        × (write_failed ≡ false)) }
    ensures memory { (left before after : Option (List ℕ)) (read_failed write_failed flushed : Bool)
        → Replayed left read_failed before after write_failed flushed (Err fault.OutOfMemory)
        ↔ ((after ≡ before) × (read_failed ≡ false) × (write_failed ≡ false)) }
    ensures close { (left : List ℕ) (before after : Option (List ℕ)) (read_failed write_failed flushed : Bool)
        → Replayed (Some left) read_failed before after write_failed flushed (Err fault.Close)
        ↔ ((length left ≤ 16777216) × (after ≡ before) × (read_failed ≡ false)
        × (write_failed ≡ false)) }
    ensures work { (f : ReplayFault)
        → EndsWork f ↔ ((f ≡ fault.OutOfMemory) ⊎ (f ≡ fault.Close)) }
{}

/// If the source doesn't report its bytes, they are those of some trace.
pub fn answers_to_an_untold_source()
    ensures answered { (before : List ℕ) (after : Option (List ℕ)) (read_failed write_failed flushed : Bool) (summary : Summary)
        → Replayed None read_failed (Some before) after write_failed flushed (Ok summary)
        ↔ ((left : List ℕ)
        × Replayed (Some left) read_failed (Some before) after write_failed flushed (Ok summary)) }
    ensures cut { (before : List ℕ) (after : Option (List ℕ)) (read_failed write_failed flushed : Bool)
        → Replayed None read_failed (Some before) after write_failed flushed (Err fault.Write)
        ↔ ((left : List ℕ)
        × Replayed (Some left) read_failed (Some before) after write_failed flushed (Err fault.Write)) }
{}

/// A complete read returns all that the source had, if it reports it, and at most 16,777,216 bytes. The input is too long
/// exactly if the source had more. A read never ends as a write does.
pub fn reads_that_are_told()
    ensures exactly { (left : List ℕ) (failed : Bool) (v : Vec ℕ Global)
        → WholeRead (Some left) failed (Ok v)
        ↔ ((v.items ≡ left) × (length left ≤ 16777216) × (failed ≡ false)) }
    ensures untold { (failed : Bool) (v : Vec ℕ Global)
        → WholeRead None failed (Ok v) ↔ ((length v.items ≤ 16777216) × (failed ≡ false)) }
    ensures read { (left : Option (List ℕ)) (failed : Bool)
        → WholeRead left failed (Err fault.Read) ↔ (failed ≡ true) }
    ensures too_long { (left : List ℕ) (failed : Bool)
        → WholeRead (Some left) failed (Err fault.InputTooLong)
        ↔ ((16777217 ≤ length left) × (failed ≡ false)) }
    ensures memory { (left : Option (List ℕ)) (failed : Bool)
        → WholeRead left failed (Err fault.OutOfMemory) ↔ (failed ≡ false) }
    ensures never_write { (left : Option (List ℕ)) (failed : Bool)
        → WholeRead left failed (Err fault.Write) → ⊥ }
    ensures never_close { (left : Option (List ℕ)) (failed : Bool)
        → WholeRead left failed (Err fault.Close) → ⊥ }
{}

/// A complete write appends the bytes to the sink, if it reports them, and flushes them. A failed write appends a prefix of
/// them.
pub fn writes_that_are_told()
    ensures exactly { (before bytes : List ℕ) (after : Option (List ℕ)) (failed flushed : Bool) (u : Unit {0})
        → WholeWrite (Some before) bytes after failed flushed (Ok u)
        ↔ ((after ≡ Some (before ++ bytes)) × (failed ≡ false) × (flushed ≡ true)) }
    ensures cut { (before bytes : List ℕ) (after : Option (List ℕ)) (failed flushed : Bool) (e : DeviceFault)
        → WholeWrite (Some before) bytes after failed flushed (Err e)
        ↔ ((failed ≡ true) × ((front rest : List ℕ) × (front ++ rest ≡ bytes)
        × (after ≡ Some (before ++ front)))) }
    ensures front { (before bytes rest : List ℕ) (after : Option (List ℕ))
        → TakesFront (Some before) bytes rest after
        ↔ ((front : List ℕ) × (front ++ rest ≡ bytes) × (after ≡ Some (before ++ front))) }
{}

/// By the words of the command line: without a fault in them the program does a replay, which is answered completely or ends
/// with a fault of its own. A rehearsal never ends with `Close`, nor does one worker. If help is requested, some text is
/// written. If the words request nothing, nothing is read or written.
pub fn runs_that_are_told()
    ensures replayed { (words : List Text) (workers : ℕ) (left rest before after : Option (List ℕ)) (read_failed write_failed flushed : Bool) (u : Unit {0})
        → fault_of app words ≡ [] → workers_in words ≡ Some workers
        → EndsReplay words left rest read_failed before after write_failed flushed (Ok u)
        ↔ ((summary : Summary) × Replayed left read_failed before after write_failed flushed (Ok summary)) }
    ensures helped { (words : List Text) (left rest after : Option (List ℕ)) (before : List ℕ) (read_failed write_failed flushed : Bool) (u : Unit {0})
        → AsksHelp words
        → EndsReplay words left rest read_failed (Some before) after write_failed flushed (Ok u)
        ↔ ((rest ≡ left) × (read_failed ≡ false) × (write_failed ≡ false) × (flushed ≡ true)
        × ((text : List ℕ) × (after ≡ Some (before ++ text)))) }
    ensures never { (words : List Text) (left rest before after : Option (List ℕ)) (read_failed write_failed flushed : Bool) (u : Unit {0})
        → fault_of app words ≡ [] → workers_in words ≡ None
        → EndsReplay words left rest read_failed before after write_failed flushed (Ok u) → ⊥ }
    ensures refused { (words : List Text) (left rest before after : Option (List ℕ)) (read_failed write_failed flushed : Bool) (f : LineFault)
        → EndsReplay words left rest read_failed before after write_failed flushed (Err (program.Line f))
        ↔ (AsksReplay words (Err f) × (rest ≡ left) × (read_failed ≡ false)
        × (after ≡ before) × (write_failed ≡ false)) }
    ensures ended { (words : List Text) (left rest before after : Option (List ℕ)) (read_failed write_failed flushed : Bool) (f : ReplayFault)
        → fault_of app words ≡ []
        → EndsReplay words left rest read_failed before after write_failed flushed (Err (program.Replay f))
        → Replayed left read_failed before after write_failed flushed (Err f) }
    ensures without_workers { (words : List Text) (left rest before after : Option (List ℕ)) (read_failed write_failed flushed : Bool) (f : ReplayFault)
        → fault_of app words ≡ [] → workers_in words ≡ None
        → EndsReplay words left rest read_failed before after write_failed flushed (Err (program.Replay f)) → ⊥ }
    ensures never_close { (words : List Text) (left rest before after : Option (List ℕ)) (read_failed write_failed flushed : Bool)
        → rehearsal_in words ≡ true
        → EndsReplay words left rest read_failed before after write_failed flushed (Err (program.Replay fault.Close))
        → ⊥ }
    ensures one_worker { (words : List Text) (left rest before after : Option (List ℕ)) (read_failed write_failed flushed : Bool)
        → workers_in words ≡ Some 1
        → EndsReplay words left rest read_failed before after write_failed flushed (Err (program.Replay fault.Close))
        → ⊥ }
    ensures unwritten_help { (words : List Text) (left rest before after : Option (List ℕ)) (read_failed write_failed flushed : Bool) (f : ReplayFault)
        → AsksHelp words
        → EndsReplay words left rest read_failed before after write_failed flushed (Err (program.Replay f))
        ↔ ((f ≡ fault.Write) × (rest ≡ left) × (read_failed ≡ false) × (write_failed ≡ true)) }
{}

/// The program's status is 0 if everything was done, 2 for a bad command line, and 1 for any other fault.
pub fn statuses()
    ensures done { (u : Unit {0}) → status_of (Ok u) ≡ 0 }
    ensures bad_line { status_of (Err (program.Line line.Bad)) ≡ 2 }
    ensures memory { status_of (Err (program.Line line.OutOfMemory)) ≡ 1 }
    ensures replay { (f : ReplayFault) → status_of (Err (program.Replay f)) ≡ 1 }
{}

/// The value of `--workers` is one digit from 1 to 8, and means that number. Without `--workers` the number is one. No other
/// text means a number.
pub fn digits_that_are_said()
    ensures exactly { (text : Text) (n : ℕ)
        → (digit_said text ≡ Some n) ↔ ((1 ≤ n) × (n ≤ 8) × (text ≡ (48 + n) ∷ [])) }
    ensures one { digit_said (codes "1") ≡ Some 1 }
    ensures eight { digit_said (codes "8") ≡ Some 8 }
    ensures nought { digit_said (codes "0") ≡ None }
    ensures nine { digit_said (codes "9") ≡ None }
    ensures empty { digit_said [] ≡ None }
    ensures eleven { digit_said (codes "11") ≡ None }
    ensures word { digit_said (codes "a") ≡ None }
    ensures left_out { workers_said None ≡ Some 1 }
    ensures given { (text : Text) → workers_said (Some text) ≡ digit_said text }
    ensures not_rehearsed { rehearsal_said None ≡ false }
    ensures rehearsed { (text : Text)
        → (rehearsal_said (Some text) ≡ true) ↔ (text ≡ codes "true") }
{}

/// Without words the program does a replay by one worker. `--workers 3` requests three, and `--rehearse` a rehearsal. `--`
/// alone changes nothing. A number that is not from 1 to 8, an unknown word, a missing number and a repeated one are a bad
/// line, and so is a cluster of flags, as `-h1`, unless help is requested before it. `--help` and `-h` request help.
pub fn words_that_ask()
    ensures none { AsksReplay [] (Ok (ask.Run 1 false)) }
    ensures workers { AsksReplay (codes "--workers" ∷ codes "3" ∷ []) (Ok (ask.Run 3 false)) }
    ensures joined { AsksReplay (codes "--workers=8" ∷ []) (Ok (ask.Run 8 false)) }
    ensures rehearse { AsksReplay (codes "--rehearse" ∷ []) (Ok (ask.Run 1 true)) }
    ensures both { AsksReplay (codes "--rehearse" ∷ codes "--workers" ∷ codes "2" ∷ []) (Ok (ask.Run 2 true)) }
    ensures nine { AsksReplay (codes "--workers" ∷ codes "9" ∷ []) (Err line.Bad) }
    ensures nought { AsksReplay (codes "--workers" ∷ codes "0" ∷ []) (Err line.Bad) }
    ensures ten { AsksReplay (codes "--workers" ∷ codes "10" ∷ []) (Err line.Bad) }
    ensures unknown { AsksReplay (codes "--bogus" ∷ []) (Err line.Bad) }
    ensures stray { AsksReplay (codes "trace.txt" ∷ []) (Err line.Bad) }
    ensures left_out { AsksReplay (codes "--workers" ∷ []) (Err line.Bad) }
    ensures joined_three { AsksReplay (codes "--workers=3" ∷ []) (Ok (ask.Run 3 false)) }
    ensures dashes { AsksReplay (codes "--" ∷ []) (Ok (ask.Run 1 false)) }
    ensures twice { AsksReplay (codes "--workers" ∷ codes "2" ∷ codes "--workers" ∷ codes "3" ∷ []) (Err line.Bad) }
    ensures help { (text : String Global) → AsksReplay (codes "--help" ∷ []) (Ok (ask.Help text)) }
    ensures help_alone { AsksReplay (codes "--help" ∷ []) (Err line.Bad) → ⊥ }
    ensures short_help { (text : String Global) → AsksReplay (codes "-h" ∷ []) (Ok (ask.Help text)) }
    ensures cluster { AsksReplay (codes "-h1" ∷ []) (Err line.Bad) }
    ensures flags { AsksReplay (codes "--rehearse" ∷ codes "-hV" ∷ []) (Err line.Bad) }
    ensures no_help { (text : String Global) → AsksReplay (codes "-h1" ∷ []) (Ok (ask.Help text)) → ⊥ }
    ensures ignored { (text : String Global) → AsksReplay (codes "--help" ∷ codes "-h1" ∷ []) (Ok (ask.Help text)) }
{}

/// Words that request a run request only that run: they are not a bad line and don't request help, and the number of workers
/// is from 1 to 8. Out of memory is possible for any words.
pub fn words_ask_for_one_run()
    ensures exactly { (words : List Text) (workers : ℕ) (rehearse : Bool)
        → AsksReplay words (Ok (ask.Run workers rehearse))
        ↔ ((fault_of app words ≡ []) × (workers_in words ≡ Some workers)
        × (rehearsal_in words ≡ rehearse)) }
    ensures bounds { (words : List Text) (workers : ℕ) (rehearse : Bool)
        → AsksReplay words (Ok (ask.Run workers rehearse)) → (1 ≤ workers) × (workers ≤ 8) }
    ensures one { (words : List Text) (workers more : ℕ) (rehearse again : Bool)
        → AsksReplay words (Ok (ask.Run workers rehearse)) → AsksReplay words (Ok (ask.Run more again))
        → (workers ≡ more) × (rehearse ≡ again) }
    ensures not_bad { (words : List Text) (workers : ℕ) (rehearse : Bool)
        → AsksReplay words (Ok (ask.Run workers rehearse)) → AsksReplay words (Err line.Bad) → ⊥ }
    ensures no_help { (words : List Text) (workers : ℕ) (rehearse : Bool) (text : String Global)
        → AsksReplay words (Ok (ask.Run workers rehearse)) → AsksReplay words (Ok (ask.Help text)) → ⊥ }
    ensures help { (words : List Text) (text : String Global) → AsksReplay words (Ok (ask.Help text))
        ↔ (IsAmong kind.DisplayHelp (fault_of app words) × (cluster_first words ≡ false)) }
    ensures memory { (words : List Text) → AsksReplay words (Err line.OutOfMemory) }
{}

/// An error is a request for help or makes a bad line, never both; a request by a cluster of flags makes a bad line. Out of
/// memory is not a bad line.
pub fn errors_that_ask()
    ensures no_run { (clustered : Bool) (k : ErrorKind) (workers : ℕ) (rehearse : Bool)
        → AsksReplayBy clustered k (Ok (ask.Run workers rehearse)) → ⊥ }
    ensures help { (clustered : Bool) (k : ErrorKind) (text : String Global)
        → AsksReplayBy clustered k (Ok (ask.Help text))
        ↔ ((k ≡ kind.DisplayHelp) × (clustered ≡ false)) }
    ensures unknown { (clustered : Bool) → AsksReplayBy clustered kind.UnknownArgument (Err line.Bad) }
    ensures bad_help { (clustered : Bool)
        → AsksReplayBy clustered kind.DisplayHelp (Err line.Bad) ↔ (clustered ≡ true) }
    ensures no_bad_memory { (clustered : Bool)
        → AsksReplayBy clustered kind.OutOfMemory (Err line.Bad) → ⊥ }
{}

/// The collected arguments are exactly those that were given, in order. If they could be collected, the line is not bad on
/// their account; if not, there are none.
pub fn arguments_that_came()
    ensures exactly { (args : IntoIter (String Global) Global) (v : Vec (String Global) Global)
        → into_iter_len args ≡ length (into_iter_items args)
        → Collects (Ok args) (Ok v) → v.items ≡ into_iter_items args }
    ensures not_bad { (args : IntoIter (String Global) Global)
        → Collects (Ok args) (Err line.Bad) → ⊥ }
    ensures none { (e : Error) (v : Vec (String Global) Global) → Collects (Err e) (Ok v) → ⊥ }
    ensures bad { (e : Error)
        → Collects (Err e) (Err line.Bad) ↔ (error_kind e ≢ io_kind.OutOfMemory) }
    ensures memory { (e : Error)
        → Collects (Err e) (Err line.OutOfMemory) ↔ (error_kind e ≡ io_kind.OutOfMemory) }
{}
