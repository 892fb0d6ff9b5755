//! The source of a trace, and the sink of its answers.

ghost use Rattle.std.specs.Prelude.{◌≡◌, ◌≤◌, ℕ, List, Bool, true, false, length, if◌then◌else◌, is_err, Option, IfOk, OnErr};
ghost use Rattle.std.specs.Io.KnownBytes.{Keeps, ReadConsumes, WriteAppends};

use thiserror::Error;

/// A read, a write or a flush failed.
#[derive(Clone, Copy, Debug, PartialEq, Eq, Error)]
#[error("a device failed")]
pub struct DeviceFault;

/// The source of a trace. Its calls may wait for the device. No clause says what they allocate.
pub trait Source {
    /// The remaining bytes, if the device exposes them.
    ghost left: { Self → Option (List ℕ) };

    /// The mark: whether a read has failed.
    ghost is_failed: { Self → Bool };

    /// Reads some of the remaining bytes into the front of the buffer, and returns how many. Zero
    /// bytes, read into a buffer that isn't empty, mean the end.
    fn read(&mut self, buf: &mut [u8]) -> Result<usize, DeviceFault>
        ensures bound { IfOk result (λ n. n ≤ length buf.new) }
        ensures bytes { ReadConsumes (left self.old) (left self.new) result buf.new }
        ensures mark { is_failed self.new ≡ (if is_err result then true else is_failed self.old) };
}

/// The sink of the answers. Its calls may wait for the device. No clause says what they allocate.
pub trait Sink {
    /// The bytes taken so far, if the device exposes them.
    ghost taken: { Self → Option (List ℕ) };

    /// The mark: whether a write or flush has failed, or a write took no bytes.
    ghost is_failed: { Self → Bool };

    /// Whether everything taken is flushed: a flush has succeeded, and nothing was written since.
    ghost is_flushed: { Self → Bool };

    /// Takes some bytes from the front, and returns how many.
    fn write(&mut self, bytes: &[u8]) -> Result<usize, DeviceFault>
        ensures bound { IfOk result (λ n. n ≤ length bytes.now) }
        ensures bytes { WriteAppends (taken self.old) (taken self.new) result bytes.now }
        ensures good { IfOk result (λ n. 1 ≤ n → is_failed self.new ≡ is_failed self.old) }
        ensures failed { OnErr result (is_failed self.new ≡ true) }
        ensures none { IfOk result (λ n. n ≡ 0 → is_failed self.new ≡ true) }
        ensures unflushed { is_flushed self.new ≡ false };

    /// Flushes everything that was taken.
    fn flush(&mut self) -> Result<(), DeviceFault>
        ensures bytes { Keeps (taken self.old) (taken self.new) }
        ensures mark { is_failed self.new ≡ (if is_err result then true else is_failed self.old) }
        ensures flushed { is_flushed self.new
            ≡ (if is_err result then is_flushed self.old else true) };
}
