ghost use Rattle.std.specs.Prelude.{IfOk, string_bytes};
ghost use Rattle.journal.specs.Verdicts.{Verdict};

use kinds::fault::Refusal;
use program::check::check;
use program::program::Program;
use std::alloc::{AllocError, Global};

// Checks a text, and says what came of it.
pub(crate) fn verdict(heap: Global, text: &[u8], place: &mut Program) -> Result<String, AllocError>
    ensures { IfOk result (λ s. Verdict text.now (string_bytes s)) }
{
    match check(heap, text, place) {
        Ok(()) => {
            let functions = place.functions.len();
            let steps = place.steps();
            format!(in heap; "text: accepted {functions} functions {steps} steps\n")
        }
        Err(Refusal::Fault(fault)) => format!(in heap; "text: {fault}\n"),
        Err(Refusal::Memory) => Err(AllocError),
    }
}
