//! `/proc/PID/cgroup`: the group of a process.

ghost use Rattle.std.specs.Prelude.{◌≡◌, ◌++◌, IfOk, codes};
ghost use Rattle.flat_model.specs.FileText.{line};
ghost use Rattle.flat_model.specs.PathText.{path_text};
ghost use Rattle.interface_files.specs.Shown.{ShowsHome};

use crate::fault::ShowFault;
use group_path::GroupPath;
use pids_charge::{Charges, Meter, Pid};
use std::alloc::{AllocError, Allocator};

// The line of a process whose group is at the path.
fn home_line<B: Allocator, P: Allocator + Clone>(
    alloc: B,
    home: &GroupPath<P>,
) -> Result<Vec<u8, B>, AllocError>
    ensures { IfOk result (λ text. text.items ≡ line (codes "0::" ++ path_text home.now)) }
{
    let path = home.text();
    let mut text = Vec::with_capacity(alloc, path.len() + 4)?;
    text.extend_from_slice(b"0::")?;
    text.extend_from_slice(path)?;
    text.extend_from_slice(b"\n")?;
    Ok(text)
}

/// The text of `/proc/PID/cgroup`: `0::`, the path of the process's group, and a line feed. Costs the path's
/// length.
///
/// # Errors
///
/// `NoProcess`, then `OutOfMemory`.
pub fn render_home<A: Allocator + Clone, M: Meter, B: Allocator>(
    alloc: B,
    charges: &Charges<A, M>,
    pid: Pid,
) -> Result<Vec<u8, B>, ShowFault>
    ensures { ShowsHome M.SLOTS charges.now pid result }
{
    let Some(home) = charges.home(pid) else {
        return Err(ShowFault::NoProcess);
    };
    match home_line(alloc, home) {
        Ok(text) => Ok(text),
        Err(_) => Err(ShowFault::OutOfMemory),
    }
}
