//! A test hook that each part of a settlement calls.

ghost use Rattle.std.specs.Prelude.{◌≤◌};

/// A test hook that the thread of a part calls at its start. It may block the thread.
///
/// The parts are numbered from 1. A settlement has at most 8 of them. A replay has three phases with one part for each of
/// its 1 to 8 workers, so the greatest number is 24.
pub trait Gate: Sync {
    fn pass(&self, part: u8)
        requires from_one { 1 ≤ part }
        requires to_the_last { part ≤ 24 };
}

/// A test hook that never blocks.
#[derive(Clone, Copy, Drop)]
pub struct OpenGate;

impl Gate for OpenGate {
    fn pass(&self, _part: u8) {}
}

impl Gate for &(dyn Gate + Sync) {
    fn pass(&self, part: u8) {
        let inner = *self;
        inner.pass(part);
    }
}
