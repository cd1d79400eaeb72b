use crate::arith::Op;
use text::fields::Kind;

// A command defines the next register; registers and functions go by their numbers.
#[derive(Drop)]
pub enum Command {
    // the number itself
    Lit { value: i32 },
    // an operation on two registers
    Apply { op: Op, left: usize, right: usize },
    // a new modifiable, which the function writes
    New { function: usize, args: Vec<usize> },
}

// A tail ends a function: it writes, or reads and enters another function.
#[derive(Drop)]
pub enum Tail {
    // writes a number
    Put {
        number: usize,
    },
    // writes the empty list
    Nil,
    // writes a cell
    Con {
        head: usize,
        tail: usize,
    },
    // reads a number and enters the function with it, then the arguments
    Get {
        source: usize,
        function: usize,
        args: Vec<usize>,
    },
    // reads a list; empty enters one function with the arguments, a cell the other with head, tail, then the arguments
    Cas {
        source: usize,
        empty: usize,
        cell: usize,
        args: Vec<usize>,
    },
}

// Parameters are the first registers.
#[derive(Drop)]
pub struct Function {
    pub result: Kind,
    pub params: Vec<Kind>,
    pub commands: Vec<Command>,
    pub tail: Tail,
}
