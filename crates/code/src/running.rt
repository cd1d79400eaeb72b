ghost use Rattle.std.specs.Prelude.{◌+◌, ◌≤◌, length};
ghost use Rattle.code.specs.Values.{listed};

use crate::values::Values;

pub mod methods;
pub mod steps;

/// The most registers of a function while it runs: it is entered with at most 8 values, the head and the tail of a cell and
/// six arguments, and has at most 16 commands, each of which defines a register.
pub const MOST_REGISTERS: usize = 24;

/// A function while it runs: the registers so far, its number, and which of its commands is next.
#[derive(Clone, Copy)]
pub struct Running {
    registers: Values<MOST_REGISTERS>,
    function: u8,
    at: u8,
    ghost room: { length (listed registers) ≤ 8 + at },
    ghost few: { at ≤ 16 },
}

/// A function that waits behind a NEW for the modifiable that is being made: there is room for its register.
#[derive(Clone, Copy)]
pub struct Waiting {
    running: Running,
    ghost room: { length (listed running.registers) + 1 ≤ 8 + running.at },
}
