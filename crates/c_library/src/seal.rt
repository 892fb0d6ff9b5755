//! A box as a bare pointer for C to keep; or none.
ghost use Rattle.std.specs.Prelude.{◌≡◌, true, Option, None, Some, is_some};
ghost use Rattle.line_engine.specs.declared.engine.LineEngine.{LineEngine};
ghost use Rattle.c_library.specs.Sealed.{held_coded, seal_owns};

use crate::parts::Parts;
use line_engine::LineEngine;
use std::alloc::Global;
use std::marker::Model;

/// An engine's box, or none.
#[repr(C)]
#[derive(Drop)]
pub struct Seal {
    at: *mut u8,
    alloc: Global,
    pub(crate) ghost held: { Option LineEngine } by { held_coded },
}

impl Model for Seal {
    ghost also_owns = { λ s. seal_owns s.alloc s.at s.held };
}

impl Seal {
    pub(crate) fn of_parts(parts: Parts<LineEngine, Global>) -> Seal
        ensures { result.held ≡ Some parts.value }
    {
        let Parts { ptr, alloc } = parts;
        Seal {
            at: ptr as *mut u8,
            alloc,
        }
    }

    pub(crate) fn into_parts(self) -> Parts<LineEngine, Global>
        requires { is_some self.held ≡ true }
        ensures { Some result.value ≡ self.held }
    {
        let Seal { at, alloc } = self;
        Parts {
            ptr: at as *mut LineEngine,
            alloc,
        }
    }

    /// A seal that owns nothing.
    pub(crate) fn empty(alloc: Global, at: *mut u8) -> Seal
        ensures { result.held ≡ None }
    {
        Seal { at, alloc }
    }
}
