//! The whole input, up to a limit.

ghost use Rattle.std.specs.Prelude.{◌≡◌, false};
ghost use Rattle.replay_main.specs.WholeInput.{WholeRead};

use crate::{ReplayFault, Source, TRACE_MAX};
use std::alloc::Global;

/// Reads to the end.
pub(crate) fn read_whole<S: Source>(alloc: Global, source: &mut S) -> Result<Vec<u8>, ReplayFault>
    requires { S.is_failed source.old ≡ false }
    ensures { WholeRead (S.left source.old) (S.is_failed source.new) result }
{
    let mut bytes = Vec::new(alloc);
    let mut buf = [0u8; 4096];
    for turn in 0..TRACE_MAX + 1 {
        let Ok(count) = source.read(&mut buf) else {
            return Err(ReplayFault::Read);
        };
        if count == 0 {
            return Ok(bytes);
        }
        if bytes.extend_from_slice(&buf[..count]).is_err() {
            return Err(ReplayFault::OutOfMemory);
        }
        if bytes.len() > TRACE_MAX {
            return Err(ReplayFault::InputTooLong);
        }
    }
    Err(ReplayFault::InputTooLong)
}
