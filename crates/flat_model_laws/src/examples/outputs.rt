//! Worked examples of the output for a line: a text fault, and which replies are refusals.

ghost use Rattle.std.specs.Prelude.{◌≡◌, ◌↔◌, true, false, nat_eq, codes};
ghost use Rattle.std.specs.List.{starts_with};
ghost use Rattle.flat_model.specs.Command.{Exit, Reply, Text, Undone, Refused, NothingToUndo, Exists};
ghost use Rattle.flat_model.specs.Replies.{reply_bytes, fault_bytes, is_refused};
ghost use Rattle.flat_model.specs.Trace.{BadSyntax, BadPath, BadFile, BadDirection, BadValue};

/// The output for a line with a fault of its text, under the line's number.
pub fn faults_written()
    ensures syntax { fault_bytes 1 BadSyntax ≡ codes "1 refused syntax\n" }
    ensures path { fault_bytes 12 BadPath ≡ codes "12 refused path\n" }
    ensures file { fault_bytes 3 BadFile ≡ codes "3 refused file\n" }
    ensures direction { fault_bytes 4 BadDirection ≡ codes "4 refused direction\n" }
    ensures value { fault_bytes 100 BadValue ≡ codes "100 refused value\n" }
{}

/// A reply is a refusal exactly if its output begins with the number and `refused`. The others begin with the number and `ok`.
pub fn replies_that_refuse()
    ensures refused { (r : Reply) → is_refused r ≡ starts_with nat_eq (reply_bytes 7 r) (codes "7 refused ") }
    ensures answered { (r : Reply) → (starts_with nat_eq (reply_bytes 7 r) (codes "7 ok\n") ≡ true) ↔ (is_refused r ≡ false) }
    ensures exists { is_refused (Refused Exists) ≡ true }
    ensures nothing { is_refused NothingToUndo ≡ true }
    ensures undone { is_refused (Undone (Exit 5)) ≡ false }
    ensures text { is_refused (Text (codes "7 refused ")) ≡ false }
{}
