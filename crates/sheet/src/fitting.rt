// Which contents fit which inputs.
ghost use Rattle.std.specs.Prelude.{◌≡◌};
ghost use Rattle.program.specs.View.{viewed};
ghost use Rattle.history.specs.Book.{count_of_inputs, has_right_kind, has_right_cell, unfit};
ghost use Rattle.sheet.specs.Refusals.{made_with, unfit_told};

use crate::refusal::Refusal;
use program::program::Program;
use program::value::InputContent;

/// How many inputs there are.
fn input_count(program: &Program) -> usize
    ensures { result ≡ count_of_inputs (made_with (viewed program.now)) }
{
    program.numbers + program.lists
}

/// A number for the first inputs, a list for the others.
fn right_kind(program: &Program, input: u16, content: InputContent) -> bool
    ensures { result ≡ has_right_kind (made_with (viewed program.now)) input content }
{
    let numbers = program.numbers;
    match content {
        InputContent::Number(_) => (input as usize) < numbers,
        InputContent::Empty | InputContent::Cell { .. } => numbers <= input as usize,
    }
}

/// A cell names an input with a number and one with a list.
fn right_cell(program: &Program, content: InputContent) -> bool
    ensures { result ≡ has_right_cell (made_with (viewed program.now)) content }
{
    match content {
        InputContent::Cell { head, tail } => {
            let numbers = program.numbers;
            let count = input_count(program);
            (head as usize) < numbers && numbers <= tail as usize && (tail as usize) < count
        }
        InputContent::Number(_) | InputContent::Empty => true,
    }
}

/// Whether the content fits the input, or why not.
// A struct of a program, an input and a content would be made for this one call.
pub(crate) fn fit(program: &Program, input: u16, content: InputContent) -> Result<(), Refusal>
    ensures { unfit_told result ≡ unfit (made_with (viewed program.now)) input content }
{
    if input as usize >= input_count(program) {
        return Err(Refusal::NoSuchInput);
    }
    if !right_kind(program, input, content) {
        return Err(Refusal::OtherKind);
    }
    if !right_cell(program, content) {
        return Err(Refusal::WrongCell);
    }
    Ok(())
}
