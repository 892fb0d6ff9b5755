//! The fault of a text that is not a path, for C.

ghost use Rattle.line_engine.specs.PathFaults.{fault_at};
ghost use Rattle.c_library.specs.Status.{TellsFault};

use line_engine::path_fault;
use std::alloc::Global;

/// The number of the first fault of a text that is not a path, and where it is; 0 and 0 for a path.
#[unsafe(no_mangle)]
pub extern "C" fn mk0_path_fault(alloc: Global, path: &[u8], at: &mut usize) -> u32
    ensures { TellsFault (fault_at path.now) result at.new }
{
    match path_fault(alloc, path) {
        Some(fault) => {
            *at = fault.at;
            fault.number
        }
        None => {
            *at = 0;
            0
        }
    }
}
