//! A trace in one pass over its lines.

ghost use Rattle.std.specs.Prelude.{◌≤◌, length, IfOk};
ghost use Rattle.flat_model.specs.Trace.{trace_max};
ghost use Rattle.replay_main.specs.Replayed.{IsAnswered};

use crate::Talk;
use crate::trace::Answered;
use std::alloc::{AllocError, Global};
use trace_lines::Lines;

/// Answers each line of a trace in one pass over it.
pub(crate) fn answer_in_one_pass(alloc: Global, trace: &[u8]) -> Result<Answered, AllocError>
    requires { length trace.now ≤ trace_max }
    ensures { IfOk result (λ a. IsAnswered trace.now a.bytes.items a.summary) }
{
    let mut talk = Talk::new(alloc)?;
    let mut bytes = Vec::new(alloc);
    for line in Lines::of(trace) {
        talk.put_answer(alloc, line, &mut bytes)?;
    }
    Ok(Answered {
        bytes,
        summary: talk.summary(),
    })
}
