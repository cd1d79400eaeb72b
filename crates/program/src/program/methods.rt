ghost use Rattle.std.specs.Prelude.{◌≡◌, ◌≤◌, IfOk};
ghost use Rattle.program.specs.Says.{program_lines};
ghost use Rattle.program.specs.Programs.{function_lines};
ghost use Rattle.program.specs.View.{viewed};
ghost use Rattle.program.specs.Sound.{steps_in};
ghost use Rattle.program.specs.Smallest.{zero_lines, smallest_lines};

use crate::function::{Command, Function, Tail};
use crate::program::Program;
use std::alloc::{AllocError, Global};
use text::fields::Kind;

// FUN 2; LIT 0; PUT 0
fn writes_zero(heap: Global) -> Result<Function, AllocError>
    ensures { IfOk result (λ f. function_lines f ≡ zero_lines) }
{
    Ok(Function {
        result: Kind::ModNumber,
        params: Vec::new(heap),
        commands: vec![in heap; Command::Lit { value: 0 }]?,
        tail: Tail::Put { number: 0 },
    })
}

impl Program {
    // What a new place holds: one number input, nothing given, and a function that writes 0.
    pub fn smallest(heap: Global) -> Result<Program, AllocError>
        ensures { IfOk result (λ p. program_lines p ≡ smallest_lines) }
    {
        let functions = vec![in heap; writes_zero(heap)?]?;
        Ok(Program {
            numbers: 1,
            lists: 0,
            run: Vec::new(heap),
            functions,
        })
    }

    // Commands and tails together.
    pub fn steps(&self) -> usize
        ensures value { result ≡ steps_in (viewed self.now).functions }
        ensures bound { result ≤ 512 }
    {
        self.functions
            .iter()
            .map(|function| function.commands.len() + 1)
            .sum()
    }
}
