//! A source that sees what was flushed before each read, and a sink that counts its flushed bytes.

ghost use Rattle.std.specs.Prelude.{◌≡◌, None, false};

use replay_main::{DeviceFault, Sink, Source};
use std::alloc::Global;
use std::sync::atomic::{AtomicU64, Ordering};

/// Gives one piece of a text at each read, and notes how many bytes were flushed by then. A `^` ends each piece but the last.
#[derive(Drop)]
pub struct Asker<'a> {
    rest: &'a str,
    flushed: &'a AtomicU64,
    seen: Vec<u64>,
    is_failed: bool,
}

impl<'a> Asker<'a> {
    /// Gives the pieces of this text. A sink counts its flushed bytes in `flushed`.
    pub fn new(alloc: Global, text: &'a str, flushed: &'a AtomicU64) -> Asker<'a>
        ensures { ⟦<Asker<'a> as Source>⟧.is_failed result ≡ false }
    {
        Asker {
            rest: text,
            flushed,
            seen: Vec::new(alloc),
            is_failed: false,
        }
    }

    /// How many bytes were flushed before each read.
    pub fn seen(&self) -> &[u64] {
        self.seen.as_slice()
    }
}

impl<'a> Source for Asker<'a> {
    ghost left = { λ s. None };

    ghost is_failed = { λ s. s.is_failed };

    fn read(&mut self, buf: &mut [u8]) -> Result<usize, DeviceFault> {
        let flushed = self.flushed.load(Ordering::SeqCst);
        if self.seen.push(flushed).is_err() {
            self.is_failed = true;
            return Err(DeviceFault);
        }
        let (piece, rest) = match self.rest.split_once('^') {
            Some((piece, rest)) => (piece, rest),
            None => (self.rest, ""),
        };
        let count = buf.len().min(piece.len());
        buf[..count].copy_from_slice(&piece.as_bytes()[..count]);
        self.rest = rest;
        Ok(count)
    }
}

/// Takes three bytes at a time, and counts the flushed bytes.
#[derive(Drop)]
pub struct Listener<'a> {
    bytes: Vec<u8>,
    flushed: &'a AtomicU64,
    is_failed: bool,
    is_flushed: bool,
}

impl<'a> Listener<'a> {
    /// A sink that has taken nothing. It counts its flushed bytes in `flushed`.
    pub fn new(alloc: Global, flushed: &'a AtomicU64) -> Listener<'a>
        ensures { ⟦<Listener<'a> as Sink>⟧.is_failed result ≡ false }
    {
        Listener {
            bytes: Vec::new(alloc),
            flushed,
            is_failed: false,
            is_flushed: false,
        }
    }

    /// The bytes that were taken.
    pub fn bytes(&self) -> &[u8] {
        self.bytes.as_slice()
    }
}

impl<'a> Sink for Listener<'a> {
    ghost taken = { λ s. None };

    ghost is_failed = { λ s. s.is_failed };

    ghost is_flushed = { λ s. s.is_flushed };

    fn write(&mut self, bytes: &[u8]) -> Result<usize, DeviceFault> {
        self.is_flushed = false;
        let count = bytes.len().min(3);
        if count == 0 || self.bytes.extend_from_slice(&bytes[..count]).is_err() {
            self.is_failed = true;
            return Err(DeviceFault);
        }
        Ok(count)
    }

    fn flush(&mut self) -> Result<(), DeviceFault> {
        self.flushed
            .store(self.bytes.len() as u64, Ordering::SeqCst);
        self.is_flushed = true;
        Ok(())
    }
}
