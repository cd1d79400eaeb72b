ghost use Rattle.std.specs.Prelude.{◌≡◌};
ghost use Rattle.program.specs.declared.value.Value.TheVariants.{Number as NumberValue};
ghost use Rattle.trace.specs.Code.{entered, arguments, content_number};
ghost use Rattle.code.specs.Readers.{reader_of};
ghost use Rattle.code.specs.Shown.{Entered};

use crate::args::Args;
use crate::running::Running;
use program::value::{Content, Value};

/// What a read enters, by the content that it takes.
// A CAS has two functions for one list of arguments, so a function and its arguments are not one struct.
#[derive(Clone, Copy)]
pub enum Reader {
    /// The function, with the number and then the arguments.
    Get { function: u8, args: Args },
    /// On the empty list the one function with the arguments; on a cell the other with head, tail and then the arguments.
    Cas { empty: u8, cell: u8, args: Args },
}

/// The number that a content holds, as a value; a list counts as 0.
// In a checked program a GET reads a number: the default is never reached, and an Option would only move it to the caller.
fn number_of(taken: Content) -> Value
    ensures { result ≡ NumberValue (content_number taken) }
{
    match taken {
        Content::Number(number) => Value::Number(number),
        Content::Empty | Content::Cell { .. } => Value::Number(0),
    }
}

impl Reader {
    /// Enters the function that goes on with the content.
    pub fn enter(self, taken: Content) -> Running
        ensures { Entered (entered (reader_of self) taken) (arguments (reader_of self) taken) result }
    {
        match self {
            Reader::Get { function, args } => {
                Running::enter_with(function, &[number_of(taken)], args)
            }
            Reader::Cas { empty, cell, args } => match taken {
                Content::Cell { head, tail } => {
                    Running::enter_with(cell, &[Value::Mod(head), Value::Mod(tail)], args)
                }
                Content::Empty | Content::Number(_) => Running::enter(empty, args),
            },
        }
    }
}
