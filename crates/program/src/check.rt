ghost use Rattle.program.specs.Checks.{Checks};

use crate::program::Program;
use crate::read::read_program;
use kinds::check::check_kinds;
use kinds::fault::Refusal;
use std::alloc::Global;

// From a text's bytes to a checked program in the caller's place, or the least fault of the text; a refusal leaves the
// place as it was.
pub fn check(heap: Global, text: &[u8], place: &mut Program) -> Result<(), Refusal>
    ensures { Checks text.now place.old result place.new }
{
    check_kinds(heap, text)?;
    *place = read_program(heap, text)?;
    Ok(())
}
