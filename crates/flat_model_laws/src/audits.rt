//! The laws of the definition of an audit. Each function is proof only: its contract is a law.

ghost use Rattle.std.specs.Prelude.{
  ◌≡◌,
  ◌≢◌,
  ◌⊎◌,
  ◌↔◌,
  ◌++◌,
  ◌∷◌,
  ◌<◌,
  ◌==◌,
  ℕ,
  List,
  [],
  Some,
  slice_get,
  length,
  map,
  count_by,
};
ghost use Rattle.std.specs.List.{All, Any};
ghost use Rattle.std.specs.List.Sorted.{IsStrictlyIncreasing};
ghost use Rattle.flat_model.specs.Log.{Entry, Receipt, Session, entry_of};
ghost use Rattle.flat_model.specs.Audit.{
  ReceiptFault,
  Handed,
  handed,
  numbers,
  AreSound,
  AreEntries,
  IsStranger,
  FirstFault,
};

/// Receipts are the log's entries exactly if they have no fault; there is at most one first fault.
pub fn fault_or_entries()
    ensures not_both { (n : ℕ) (log : List Entry) (ss : List Session) (f : ReceiptFault)
        → FirstFault n log ss f → AreEntries n log ss → ⊥ }
    ensures one { (n : ℕ) (log : List Entry) (ss : List Session) (f g : ReceiptFault)
        → FirstFault n log ss f → FirstFault n log ss g → f ≡ g }
{}

/// The receipts are the log's entries exactly if there is no first fault. One of the two can always
/// be found.
pub fn fault_is_found()
    ensures exactly { (n : ℕ) (log : List Entry) (ss : List Session)
        → AreEntries n log ss ↔ ((f : ReceiptFault) → FirstFault n log ss f → ⊥) }
    ensures found { (n : ℕ) (log : List Entry) (ss : List Session)
        → AreEntries n log ss ⊎ ((f : ReceiptFault) × FirstFault n log ss f) }
{}

/// If the receipts are the log's entries, each entry has one receipt, which equals it, and the
/// numbers ascend within each session's list.
pub fn entries_once()
    ensures once { (n : ℕ) (log : List Entry) (ss : List Session) (i : ℕ) → AreEntries n log ss
        → i < length log → count_by (λ m. m == i) (numbers (handed ss)) ≡ 1 }
    ensures own { (n : ℕ) (log : List Entry) (ss : List Session) (i : ℕ) → AreEntries n log ss
        → i < length log
        → Any (λ h. (h.receipt.number ≡ i) × (h.session < n)
        × (slice_get log i ≡ Some (entry_of h.session h.receipt))) (handed ss) }
    ensures ascending { (n : ℕ) (log : List Entry) (ss : List Session) → AreEntries n log ss
        → All (λ s. IsStrictlyIncreasing (map (λ r. r.number) s.receipts)) ss }
{}

/// A receipt may follow sound ones exactly if it is no stranger and equals the entry at its number.
pub fn stranger_or_next()
    ensures follows { (n : ℕ) (log : List Entry) (before : List Handed) (h : Handed)
        → AreSound n log before → (IsStranger n log before h → ⊥)
        → slice_get log h.receipt.number ≡ Some (entry_of h.session h.receipt)
        → AreSound n log (before ++ h ∷ []) }
    ensures no_stranger { (n : ℕ) (log : List Entry) (before : List Handed) (h : Handed)
        → AreSound n log (before ++ h ∷ []) → IsStranger n log before h → ⊥ }
{}
