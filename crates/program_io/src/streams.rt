//! Devices over the readers and writers of std, such as standard input and output.

ghost use Rattle.std.specs.Prelude.{◌≡◌, true, false, is_err, Ok, IfOk, OnErr};

use crate::{DeviceFault, Sink, Source};
use std::io;
use std::io::{Read, Write};

/// The result of a device for that of its reader or writer. A failure is returned, and sets the
/// mark.
fn tell<X>(is_failed: &mut bool, answer: io::Result<X>) -> Result<X, DeviceFault>
    ensures ok { IfOk answer (λ x. (result ≡ Ok x) × (is_failed.new ≡ is_failed.old)) }
    ensures failed { OnErr answer ((is_err result ≡ true) × (is_failed.new ≡ true)) }
{
    match answer {
        Ok(value) => Ok(value),
        Err(_) => {
            *is_failed = true;
            Err(DeviceFault)
        }
    }
}

/// A source over a reader. It exposes the remaining bytes if the reader does: one over memory does,
/// standard input doesn't.
#[derive(Drop)]
pub struct StreamSource<R: Read> {
    reader: R,
    is_failed: bool,
}

impl<R: Read> StreamSource<R> {
    /// A source with what remains in this reader, which has not failed.
    pub fn new(reader: R) -> StreamSource<R>
        ensures left { ⟦<StreamSource<R> as Source>⟧.left result ≡ R.remaining reader }
        ensures good { ⟦<StreamSource<R> as Source>⟧.is_failed result ≡ false }
    {
        StreamSource {
            reader,
            is_failed: false,
        }
    }
}

impl<R: Read> Source for StreamSource<R> {
    ghost left = { λ s. R.remaining s.reader };

    ghost is_failed = { λ s. s.is_failed };

    fn read(&mut self, buf: &mut [u8]) -> Result<usize, DeviceFault> {
        tell(&mut self.is_failed, self.reader.read(buf))
    }
}

/// A sink over a writer. It exposes the bytes taken if the writer does: one over memory does,
/// standard output doesn't.
#[derive(Drop)]
pub struct StreamSink<W: Write> {
    writer: W,
    is_failed: bool,
    is_flushed: bool,
}

impl<W: Write> StreamSink<W> {
    /// A sink that has taken what this writer holds, and has not failed.
    pub fn new(writer: W) -> StreamSink<W>
        ensures taken { ⟦<StreamSink<W> as Sink>⟧.taken result ≡ W.contents writer }
        ensures good { ⟦<StreamSink<W> as Sink>⟧.is_failed result ≡ false }
    {
        StreamSink {
            writer,
            is_failed: false,
            is_flushed: false,
        }
    }
}

impl<W: Write> Sink for StreamSink<W> {
    ghost taken = { λ s. W.contents s.writer };

    ghost is_failed = { λ s. s.is_failed };

    ghost is_flushed = { λ s. s.is_flushed };

    fn write(&mut self, bytes: &[u8]) -> Result<usize, DeviceFault> {
        self.is_flushed = false;
        let count = tell(&mut self.is_failed, self.writer.write(bytes))?;
        if count == 0 {
            self.is_failed = true;
        }
        Ok(count)
    }

    fn flush(&mut self) -> Result<(), DeviceFault> {
        tell(&mut self.is_failed, self.writer.flush())?;
        self.is_flushed = true;
        Ok(())
    }
}
