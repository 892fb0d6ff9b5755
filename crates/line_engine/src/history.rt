//! The recorded commands as lines.

ghost use Rattle.std.specs.Prelude.{◌≡◌, IfOk};
ghost use Rattle.line_engine.specs.Listings.{TellsHistory, history_from, lines_bytes};

use crate::engine::LineEngine;
use crate::listing::{Listing, put_listing};
use pids_charge::PlainMeter;
use std::alloc::{AllocError, Global};
use undo_journal::Engine;

fn gather_lines(
    alloc: Global,
    engine: &Engine<Global, PlainMeter<Global>>,
    from: usize,
) -> Result<Vec<u8>, AllocError>
    ensures { IfOk result (λ bytes. bytes.items ≡ lines_bytes (history_from engine.now.machine.past from)) }
{
    let mut bytes = Vec::new(alloc);
    for place in from..engine.depth() {
        let Some(command) = engine.command_at(place) else {
            unreachable!()
        };
        let text = command.text(alloc)?;
        bytes.extend_from_slice(text.as_slice())?;
        bytes.push(b'\n')?;
    }
    Ok(bytes)
}

impl LineEngine {
    /// Puts the recorded commands from this place on, where the oldest has place 0, into the start of the buffer, oldest
    /// first. Each is a line as `undo` shows it, with its line feed.
    pub fn history(&self, alloc: Global, from: usize, out: &mut [u8]) -> Listing
        ensures { TellsHistory self.now.engine.machine.past from out.new result }
    {
        let Ok(bytes) = gather_lines(alloc, &self.engine, from) else {
            return Listing::OutOfMemory;
        };
        let count = self.engine.depth().saturating_sub(from);
        put_listing(out, bytes.as_slice(), count)
    }
}
