//! What C keeps: an engine, or none.

ghost use Rattle.std.specs.Prelude.{◌≡◌, Some, None, is_some, option_map};

use crate::parts::Parts;
use crate::seal::Seal;
use line_engine::LineEngine;
use std::alloc::Global;
use std::{mem, ptr};

/// An engine, or none. All bytes 0 means none.
#[repr(C)]
#[derive(Drop)]
pub struct Handle {
    seal: Seal,
    full: bool,
    ghost tied: { is_some seal.held ≡ full },
}

impl Handle {
    fn of(alloc: Global, engine: Option<Box<LineEngine>>) -> Handle
        ensures { result.seal.held ≡ option_map (λ b. b.value) engine }
    {
        match engine {
            Some(engine) => Handle {
                seal: Seal::of_parts(Parts::of(engine)),
                full: true,
            },
            None => Handle {
                seal: empty_seal(alloc),
                full: false,
            },
        }
    }

    fn into_box(self) -> Option<Box<LineEngine>>
        ensures { option_map (λ b. b.value) result ≡ self.seal.held }
    {
        let Handle { seal, full } = self;
        if !full {
            return None;
        }
        Some(seal.into_parts().into_box())
    }

    /// Takes the engine out.
    pub(crate) fn take(&mut self, alloc: Global) -> Option<Box<LineEngine>>
        ensures taken { option_map (λ b. b.value) result ≡ self.old.seal.held }
        ensures none { self.new.seal.held ≡ None }
    {
        let was = mem::replace(self, Handle::of(alloc, None));
        was.into_box()
    }

    /// Puts an engine in.
    pub(crate) fn put(&mut self, alloc: Global, engine: Box<LineEngine>)
        ensures { self.new.seal.held ≡ Some engine.value }
    {
        *self = Handle::of(alloc, Some(engine));
    }
}

fn empty_seal(alloc: Global) -> Seal
    ensures { result.held ≡ None }
{
    let at = ptr::null_mut();
    Seal::empty(alloc, at)
}
