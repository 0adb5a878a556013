ghost use Rattle.std.specs.Prelude.{◌≡◌};
ghost use Rattle.capsule_tool.specs.Findings.{bare};

use crate::answer::Answer;
use reset_play::Trace;
use std::alloc::Global;
use std::marker::Model;

/// What a run has found, before any of it is written: its answer, and the trace of its play.
/// Contracts see the trace as what it tells.
#[derive(Drop)]
pub struct Found {
    pub answer: Answer,
    pub trace: Trace,
}

impl Model for Found {
    ghost use Rattle.std.specs.Prelude.{map};
    ghost use Rattle.reference_machine.specs.TraceValues.{entry_value};
    ghost use Rattle.capsule_tool.specs.Findings.{Finding};

    ghost Value = { Finding };

    ghost view = { λ f. record { answer = f.answer; trace = map entry_value f.trace.items } };
}

impl Found {
    /// An answer without a play.
    pub fn bare(alloc: Global, answer: Answer) -> Found
        ensures { result ≡ bare answer }
    {
        Found {
            answer,
            trace: Trace::new(alloc),
        }
    }
}
