ghost use Rattle.std.specs.Prelude.{◌≡◌, true};
ghost use Rattle.program.specs.Programs.{keeps_rules};

use crate::function::Function;

pub mod methods;

// A checked program: so many inputs with a number, then so many with a list; the inputs given to function 0; the
// functions. That it keeps the rules of texts is part of its type: its registers, functions and inputs are there and of
// the right kinds, and its text can be written.
#[derive(Drop)]
pub struct Program {
    pub numbers: usize,
    pub lists: usize,
    pub run: Vec<usize>,
    pub functions: Vec<Function>,
    ghost keeps: { keeps_rules numbers lists run.items functions.items ≡ true },
}
