//! A sink with little room.

ghost use Rattle.std.specs.Prelude.{◌≡◌, None, false, IfOk};

use replay_main::{DeviceFault, Sink};
use std::alloc::{AllocError, Global};

/// How a narrow sink takes bytes, and where it ends.
#[derive(Clone, Copy)]
pub struct Limits {
    /// A write takes at most this many bytes.
    pub size: usize,
    /// This many bytes are taken.
    pub room: usize,
    /// This many flushes succeed; the next one fails.
    pub flushes: usize,
    /// A write without room takes no bytes instead of failing.
    pub takes_none: bool,
}

/// This number of bytes is taken without an allocation.
const RESERVED: usize = 4096;

/// Takes a few bytes at a time, up to its limits.
#[derive(Drop)]
pub struct Narrow {
    bytes: Vec<u8>,
    limits: Limits,
    is_failed: bool,
    is_flushed: bool,
}

impl Narrow {
    /// A sink that has taken nothing.
    ///
    /// # Errors
    ///
    /// `AllocError` when out of memory. Later only bytes beyond the first 4,096 take memory.
    pub fn new(alloc: Global, limits: Limits) -> Result<Narrow, AllocError>
        ensures { IfOk result (λ sink. ⟦<Narrow as Sink>⟧.is_failed sink ≡ false) }
    {
        let bytes = Vec::with_capacity(alloc, RESERVED)?;
        Ok(Narrow {
            bytes,
            limits,
            is_failed: false,
            is_flushed: false,
        })
    }

    /// The bytes that were taken.
    pub fn bytes(&self) -> &[u8] {
        self.bytes.as_slice()
    }

    /// Whether everything that was taken is flushed.
    pub fn is_flushed(&self) -> bool {
        self.is_flushed
    }
}

impl Sink for Narrow {
    ghost taken = { λ s. None };

    ghost is_failed = { λ s. s.is_failed };

    ghost is_flushed = { λ s. s.is_flushed };

    fn write(&mut self, bytes: &[u8]) -> Result<usize, DeviceFault> {
        self.is_flushed = false;
        let count = bytes.len().min(self.limits.size).min(self.limits.room);
        if count == 0 || self.bytes.extend_from_slice(&bytes[..count]).is_err() {
            self.is_failed = true;
            if count == 0 && self.limits.takes_none {
                return Ok(0);
            }
            return Err(DeviceFault);
        }
        self.limits.room -= count;
        Ok(count)
    }

    fn flush(&mut self) -> Result<(), DeviceFault> {
        if self.limits.flushes == 0 {
            self.is_failed = true;
            return Err(DeviceFault);
        }
        self.limits.flushes -= 1;
        self.is_flushed = true;
        Ok(())
    }
}
