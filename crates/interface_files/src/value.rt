//! The values of `cgroup.procs` and `cgroup.kill`.

ghost use Rattle.std.specs.Prelude.{◌≡◌, Ok, IfSome};
ghost use Rattle.flat_model.specs.Refuse.{map_ok};
ghost use Rattle.flat_model.specs.Values.{read_pid, read_kill};
ghost use Rattle.interface_files.specs.FileMeaning.{reading_of};

use crate::fault::ValueFault;
use crate::number::{begins_with_zero, read_number, trimmed};
use pids_charge::{PID_MAX, Pid};

// The number of a pid of at most seven digits without spaces: `PID_MAX` has seven. None says nothing about the text.
fn short_pid(text: &[u8]) -> Option<u32>
    ensures { IfSome result (λ number. Ok number ≡ read_pid text.now) }
{
    if text.len() > 7 || begins_with_zero(text) {
        return None;
    }
    let mut number = 0;
    for byte in text {
        if !byte.is_ascii_digit() {
            return None;
        }
        number = number * 10 + u32::from(*byte - b'0');
    }
    if number < 1 || number > PID_MAX {
        return None;
    }
    Some(number)
}

/// Reads a pid: decimal digits without a leading zero, from 1 to `PID_MAX`. Blanks, tabs, line feeds and carriage returns at
/// both ends are dropped. Allocates nothing.
///
/// # Errors
///
/// The first that applies, in the order of `ValueFault`.
pub fn read_pid(text: &[u8]) -> Result<Pid, ValueFault>
    ensures { reading_of result ≡ read_pid text.now }
{
    let number = match short_pid(text) {
        Some(number) => number,
        None => read_number(trimmed(text), 1, PID_MAX)?,
    };
    match Pid::new(number) {
        Some(pid) => Ok(pid),
        None => Err(ValueFault::OutOfRange),
    }
}

/// Reads the one value of `cgroup.kill`: `1`, with spaces dropped at both ends as for a pid. Allocates nothing.
///
/// # Errors
///
/// The first that applies, in the order of `ValueFault`.
pub fn read_kill(text: &[u8]) -> Result<(), ValueFault>
    ensures { reading_of result ≡ map_ok (λ _. tt) (read_kill text.now) }
{
    let _ = read_number(trimmed(text), 1, 1)?;
    Ok(())
}
