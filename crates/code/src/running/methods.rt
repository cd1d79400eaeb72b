// How a function is entered, and what its registers hold.
ghost use Rattle.std.specs.Prelude.{◌≡◌, ◌≤◌, [], ◌++◌, length};
ghost use Rattle.program.specs.View.{View};
ghost use Rattle.trace.specs.Code.{resume, register};
ghost use Rattle.code.specs.Values.{listed};
ghost use Rattle.code.specs.Shown.{held, shown, shown_waiting, Entered};

use crate::args::Args;
use crate::running::{Running, Waiting};
use crate::values::Values;
use program::value::{Name, Value};

impl Running {
    /// Enters a function with the leading values and then the arguments.
    pub(crate) fn enter_with(function: u8, lead: &[Value], args: Args) -> Running
        requires { length lead.now ≤ 2 }
        ensures { Entered function (lead.now ++ listed args) result }
    {
        let mut registers = Values::none();
        registers.push_all(lead);
        registers.push_all(args.as_slice());
        Running {
            registers,
            function,
            at: 0,
        }
    }

    /// Enters a function with the arguments.
    pub fn enter(function: u8, args: Args) -> Running
        ensures { Entered function (listed args) result }
    {
        Running::enter_with(function, &[], args)
    }

    /// The number of the function.
    pub fn function(&self) -> u8
        ensures { result ≡ self.now.function }
    {
        self.function
    }

    /// What the registers hold.
    pub fn values(&self) -> &[Value]
        ensures { result.now ≡ held self.now }
    {
        self.registers.as_slice()
    }

    /// What a register holds; behind the last it is a number.
    pub(super) fn value(&self, i: usize) -> Value
        ensures { result ≡ register (held self.now) i }
    {
        self.values().get(i).copied().unwrap_or(Value::Number(0))
    }
}

impl Waiting {
    /// Goes on behind the NEW, with the modifiable that the record at a place made.
    pub fn resume(self, place: u16) -> Running
        ensures { (P : View) → shown P result ≡ resume (shown_waiting P self) place }
    {
        let mut running = self.running;
        running.registers.push(Value::Mod(Name::Made(place)));
        running
    }
}
