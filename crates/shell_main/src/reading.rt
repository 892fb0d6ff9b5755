//! Reading the next bytes, when nothing is owed.

ghost use Rattle.std.specs.Prelude.{◌≡◌, ◌≤◌, ℕ, List, Option, true, length, is_err, if◌then◌else◌, IfOk};
ghost use Rattle.std.specs.Io.KnownBytes.{ReadConsumes};
ghost use Rattle.shell_main.specs.Shelled.{NothingOwed};

use crate::Options;
use program_io::{DeviceFault, Sink, Source};

/// Reads the next bytes. Requires that exactly the whole lines read before are answered and the
/// output is flushed. It uses only the reader; the others are parameters for the contract.
pub(crate) fn next_chunk<S: Source, W: Sink>(
    options: Options,
    reader: &mut S,
    writer: &W,
    line: &[u8],
    buf: &mut [u8],
) -> Result<usize, DeviceFault>
    ghost start: { Option (List ℕ) × Option (List ℕ) }
    requires { (lines : List ℕ) × NothingOwed options.keeps_history start.0 (S.left reader.old) start.1
        (record { taken = W.taken writer.now; failed = W.is_failed writer.now; flushed = W.is_flushed writer.now })
        lines line.now }
    ensures bound { IfOk result (λ n. n ≤ length buf.new) }
    ensures bytes { ReadConsumes (S.left reader.old) (S.left reader.new) result buf.new }
    ensures mark { S.is_failed reader.new
        ≡ (if is_err result then true else S.is_failed reader.old) }
{
    let _ = options;
    let _ = writer;
    let _ = line;
    reader.read(buf)
}
