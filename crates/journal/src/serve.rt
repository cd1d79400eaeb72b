ghost use Rattle.std.specs.Prelude.{◌≡◌, OnOk};
ghost use Rattle.std.specs.IoError.{error_kind};
ghost use Rattle.std.specs.declared.io.ErrorKind.TheVariants.{OutOfMemory};
ghost use Rattle.std.specs.Io.KnownBytes.{IsAtEnd};
ghost use Rattle.journal.specs.Answers.{Served};

use crate::answer::answer;
use std::alloc::Global;
use std::io;
use std::io::{ErrorKind, Read, Write};

// Memory is wanting for the answers: told in the words of an `AllocError`, and not in those of a read that wants memory.
fn unanswered() -> io::Error
    ensures { error_kind result ≡ OutOfMemory }
{
    io::Error::new(ErrorKind::OutOfMemory, "memory allocation failed")
}

// Reads a journal to its end, makes its calls, and writes what they answered.
pub fn serve<R: Read, W: Write>(heap: Global, input: &mut R, output: &mut W) -> io::Result<()>
    ensures read { OnOk result (IsAtEnd (R.remaining input.new)) }
    ensures served { OnOk result (Served (R.remaining input.old) (W.contents output.old) (W.contents output.new)) }
{
    let mut journal = Vec::new(heap);
    input.read_to_end(&mut journal)?;
    let answers = answer(heap, journal.as_slice()).map_err(|_| unanswered())?;
    output.write_all(answers.as_slice())
}
