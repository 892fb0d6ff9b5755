//! Devices in memory.

ghost use Rattle.std.specs.Prelude.{◌≡◌, [], Some, false};

use crate::{DeviceFault, Sink, Source};
use std::alloc::Global;

/// A source over bytes in memory, which never fails.
#[derive(Drop)]
pub struct MemorySource<'a> {
    rest: &'a [u8],
}

impl<'a> MemorySource<'a> {
    /// A source with these bytes remaining.
    pub fn new(bytes: &'a [u8]) -> MemorySource<'a>
        ensures { ⟦<MemorySource<'a> as Source>⟧.left result ≡ Some bytes.now }
    {
        MemorySource { rest: bytes }
    }
}

impl<'a> Source for MemorySource<'a> {
    ghost left = { λ s. Some s.rest.now };

    ghost is_failed = { λ s. false };

    fn read(&mut self, buf: &mut [u8]) -> Result<usize, DeviceFault> {
        let count = buf.len().min(self.rest.len());
        let (given, rest) = self.rest.split_at(count);
        buf[..count].copy_from_slice(given);
        self.rest = rest;
        Ok(count)
    }
}

/// A sink that keeps the bytes that it takes. A write fails when out of memory, or if it gets no
/// bytes.
#[derive(Drop)]
pub struct MemorySink {
    bytes: Vec<u8>,
    is_failed: bool,
    is_flushed: bool,
}

impl MemorySink {
    /// A sink that has taken nothing, and has not failed.
    pub fn new(alloc: Global) -> MemorySink
        ensures taken { ⟦<MemorySink as Sink>⟧.taken result ≡ Some [] }
        ensures good { ⟦<MemorySink as Sink>⟧.is_failed result ≡ false }
    {
        MemorySink {
            bytes: Vec::new(alloc),
            is_failed: false,
            is_flushed: false,
        }
    }

    /// The bytes that were taken.
    pub fn bytes(&self) -> &[u8]
        ensures { Some result.now ≡ ⟦<MemorySink as Sink>⟧.taken self.now }
    {
        self.bytes.as_slice()
    }
}

impl Sink for MemorySink {
    ghost taken = { λ s. Some s.bytes.items };

    ghost is_failed = { λ s. s.is_failed };

    ghost is_flushed = { λ s. s.is_flushed };

    fn write(&mut self, bytes: &[u8]) -> Result<usize, DeviceFault> {
        self.is_flushed = false;
        if bytes.is_empty() || self.bytes.extend_from_slice(bytes).is_err() {
            self.is_failed = true;
            return Err(DeviceFault);
        }
        Ok(bytes.len())
    }

    fn flush(&mut self) -> Result<(), DeviceFault> {
        self.is_flushed = true;
        Ok(())
    }
}
