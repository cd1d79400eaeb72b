ghost use Rattle.std.specs.Prelude.{◌<◌, length, IfOk};
ghost use Rattle.journal.specs.Answers.{Answered, GoesOn};

use crate::call::Call;
use crate::cut::{cut_line, cut_text};
use crate::verdict::verdict;
use program::program::Program;
use std::alloc::{AllocError, Global};

// Makes the first call of a journal, adds its answer, and gives what is left of the journal.
fn answer_call<'a>(
    heap: Global,
    journal: &'a [u8],
    place: &mut Program,
    out: &mut Vec<u8>,
) -> Result<&'a [u8], AllocError>
    requires { 0 < length journal.now }
    ensures { IfOk result (λ rest. GoesOn journal.now out.old.items rest.now out.new.items) }
{
    let (line, behind) = cut_line(journal);
    match Call::from(line) {
        Call::Passed => Ok(behind),
        Call::Text => {
            let (text, rest) = cut_text(behind);
            let said = verdict(heap, text, place)?;
            out.extend_from_slice(said.as_bytes())?;
            Ok(rest)
        }
        Call::Unknown => {
            out.extend_from_slice(line)?;
            out.extend_from_slice(b": not a call\n")?;
            Ok(behind)
        }
    }
}

// What a journal is answered, from its bytes to the answer's; only want of memory ends it early.
pub fn answer(heap: Global, journal: &[u8]) -> Result<Vec<u8>, AllocError>
    ensures { IfOk result (λ out. Answered journal.now out.items) }
{
    let mut place = Program::smallest(heap)?;
    let mut out = Vec::new(heap);
    let mut rest = journal;
    while !rest.is_empty() {
        rest = answer_call(heap, rest, &mut place, &mut out)?;
    }
    Ok(out)
}
