//! The laws of the definitions in `specs/Bytes.antt`.

ghost use Rattle.std.specs.Prelude.{◌≡◌, ℕ, ◌↔◌, List, ◌++◌, length, Vec};
ghost use Rattle.std.specs.Arc.{arc_value};
ghost use Rattle.std.specs.declared.sync.Arc.{Arc};
ghost use Rattle.inline_bytes.specs.declared.bytes.TheConstants.{INLINE_MAX};
ghost use Rattle.inline_bytes.specs.declared.bytes.Storage.{Storage};
ghost use Rattle.inline_bytes.specs.declared.bytes.Storage.TheVariants.{Inline, Shared};
ghost use Rattle.inline_bytes.specs.Bytes.{bytes_in, IsSound};

/// An inline value has the first `len` bytes of its array and no others, and so has a value of its shared vector. A value is sound exactly if it has as many bytes as it records.
pub fn bytes_are_those_in_front()
    ensures in_front { (few behind : List ℕ) → bytes_in {A = Unit {0}} (Inline (few ++ behind) (length few)) ≡ few }
    ensures sound { (bytes : List ℕ) (len : ℕ) → length bytes ≡ INLINE_MAX → IsSound {A = Unit {0}} (Inline bytes len) ↔ (length (bytes_in {A = Unit {0}} (Inline bytes len)) ≡ len) }
    ensures shared { (few behind : List ℕ) (text : Arc (Vec ℕ (Unit {0})) (Unit {0})) → (arc_value text).items ≡ few ++ behind → bytes_in (Shared text (length few)) ≡ few }
    ensures sound_shared { (text : Arc (Vec ℕ (Unit {0})) (Unit {0})) (len : ℕ) → IsSound (Shared text len) ↔ (length (bytes_in (Shared text len)) ≡ len) }
{}
