ghost use Rattle.std.specs.Prelude.{◌≡◌, ◌<◌, map, take};
ghost use Rattle.program.specs.View.{viewed};
ghost use Rattle.code.specs.Args.{given};
ghost use Rattle.code.specs.Values.{listed};

use crate::values::Values;
use program::program::Program;
use program::value::{Name, Value};

/// The most arguments of a function.
pub const MOST_ARGS: usize = 6;

/// The arguments of a function.
pub type Args = Values<MOST_ARGS>;

/// An input as a value.
fn input(k: usize) -> Value
    requires { k < 256 }
    ensures { result ≡ given k }
{
    Value::Mod(Name::Input(k as u16))
}

impl Args {
    /// The first of these values, so many, or all where there are fewer.
    pub fn new(items: [Value; MOST_ARGS], count: u8) -> Args
        ensures { listed result ≡ take count items }
    {
        let mut args = Args::none();
        args.push_all(&items[..(count as usize).min(MOST_ARGS)]);
        args
    }

    /// What RUN gives function 0: inputs.
    pub fn of_run(program: &Program) -> Args
        ensures { listed result ≡ map given (viewed program.now).run }
    {
        let mut args = Args::none();
        for k in &program.run {
            args.push(input(*k));
        }
        args
    }
}
