//! The whole output.

ghost use Rattle.std.specs.Prelude.{◌≡◌, false};
ghost use Rattle.program_io.specs.Device.{WholeWrite};

use crate::{DeviceFault, Sink};

/// Writes all bytes and flushes, even if there are none. A write that takes no bytes is a failure.
/// The call may wait for its device.
///
/// # Errors
///
/// `DeviceFault` if a write or the flush failed, or a write took no bytes. A prefix of the bytes
/// was written then.
pub fn write_whole<S: Sink>(sink: &mut S, bytes: &[u8]) -> Result<(), DeviceFault>
    requires { S.is_failed sink.old ≡ false }
    ensures { WholeWrite (S.taken sink.old) bytes.now (S.taken sink.new)
        (S.is_failed sink.new) (S.is_flushed sink.new) result }
{
    let mut rest = bytes;
    while !rest.is_empty() {
        let count = sink.write(rest)?;
        if count == 0 {
            return Err(DeviceFault);
        }
        rest = &rest[count..];
    }
    sink.flush()
}
