//! A sink over a writer that tells a closed pipe from other faults.

ghost use Rattle.std.specs.Prelude.{◌≡◌, true, false, is_err, Ok, IfOk, OnErr};

use program_io::{DeviceFault, Sink};
use std::io;
use std::io::{ErrorKind, Write};

/// A sink over a writer. It exposes the bytes taken if the writer does: one over memory does,
/// standard output doesn't. It writes at once what it takes, and never tries a failed write again.
#[derive(Drop)]
pub struct PipeSink<W: Write> {
    writer: W,
    is_failed: bool,
    is_flushed: bool,
    is_closed: bool,
}

impl<W: Write> PipeSink<W> {
    /// A sink that has taken what this writer holds, and has not failed.
    pub fn new(writer: W) -> PipeSink<W>
        ensures taken { ⟦<PipeSink<W> as Sink>⟧.taken result ≡ W.contents writer }
        ensures good { ⟦<PipeSink<W> as Sink>⟧.is_failed result ≡ false }
    {
        PipeSink {
            writer,
            is_failed: false,
            is_flushed: false,
            is_closed: false,
        }
    }

    /// Whether a write or a flush failed since nobody reads the pipe any more.
    pub fn is_closed(&self) -> bool {
        self.is_closed
    }
}

/// The result of a device for that of its writer. A failure is returned, and sets the mark; that of
/// a closed pipe also sets the other.
fn tell<X>(
    is_failed: &mut bool,
    is_closed: &mut bool,
    answer: io::Result<X>,
) -> Result<X, DeviceFault>
    ensures ok { IfOk answer (λ x. (result ≡ Ok x) × (is_failed.new ≡ is_failed.old) × (is_closed.new ≡ is_closed.old)) }
    ensures failed { OnErr answer ((is_err result ≡ true) × (is_failed.new ≡ true)) }
{
    match answer {
        Ok(value) => Ok(value),
        Err(error) => {
            *is_failed = true;
            *is_closed = matches!(error.kind(), ErrorKind::BrokenPipe);
            Err(DeviceFault)
        }
    }
}

impl<W: Write> Sink for PipeSink<W> {
    ghost taken = { λ s. W.contents s.writer };

    ghost is_failed = { λ s. s.is_failed };

    ghost is_flushed = { λ s. s.is_flushed };

    fn write(&mut self, bytes: &[u8]) -> Result<usize, DeviceFault> {
        self.is_flushed = false;
        let count = tell(
            &mut self.is_failed,
            &mut self.is_closed,
            self.writer.write(bytes),
        )?;
        if count == 0 {
            self.is_failed = true;
        }
        Ok(count)
    }

    fn flush(&mut self) -> Result<(), DeviceFault> {
        tell(
            &mut self.is_failed,
            &mut self.is_closed,
            self.writer.flush(),
        )?;
        self.is_flushed = true;
        Ok(())
    }
}
