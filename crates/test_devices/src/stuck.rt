//! A writer of std whose flush fails.

use std::io;

/// Takes everything, and each flush fails.
#[derive(Drop)]
pub struct Stuck;

impl io::Write for Stuck {
    fn write(&mut self, bytes: &[u8]) -> io::Result<usize> {
        Ok(bytes.len())
    }

    fn flush(&mut self) -> io::Result<()> {
        Err(io::Error::from(io::ErrorKind::StorageFull))
    }
}
