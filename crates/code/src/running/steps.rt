// What a function does next.
ghost use Rattle.std.specs.Prelude.{◌≡◌, ◌<◌, ◌≤◌, map, length};
ghost use Rattle.program.specs.Arith.{applied};
ghost use Rattle.program.specs.View.{View, viewed, tail_viewed};
ghost use Rattle.program.specs.declared.value.Value.TheVariants.{Number as NumberValue};
ghost use Rattle.trace.specs.Code.{register, value_number, value_name, finish, next, makes};
ghost use Rattle.code.specs.Values.{listed};
ghost use Rattle.code.specs.Shown.{held, shown, Defined};
ghost use Rattle.code.specs.Told.{told, TailFits, behind};

use crate::args::Args;
use crate::next::Next;
use crate::reader::Reader;
use crate::running::{Running, Waiting};
use program::arith::Op;
use program::function::{Command, Tail};
use program::program::Program;
use program::value::{Content, Name, Value};

impl Running {
    /// The number in a register; a modifiable counts as 0.
    // In a checked program neither this nor the next default is ever reached; an Option here would only move it to each caller.
    fn number(&self, i: usize) -> i32
        ensures { result ≡ value_number (register (held self.now) i) }
    {
        match self.value(i) {
            Value::Number(number) => number,
            Value::Mod(_) => 0,
        }
    }

    /// The modifiable in a register; a number counts as input 0.
    fn name(&self, i: usize) -> Name
        ensures { result ≡ value_name (register (held self.now) i) }
    {
        match self.value(i) {
            Value::Number(_) => Name::Input(0),
            Value::Mod(name) => name,
        }
    }

    /// What the named registers hold.
    fn pick(&self, named: &[usize]) -> Args
        requires { length named.now ≤ 6 }
        ensures { listed result ≡ map (register (held self.now)) named.now }
    {
        let mut args = Args::none();
        for i in named {
            args.push(self.value(*i));
        }
        args
    }

    /// An operation on two registers.
    fn apply(&self, op: Op, left: usize, right: usize) -> Value
        ensures { result ≡ NumberValue (applied op (value_number (register (held self.now) left)) (value_number (register (held self.now) right))) }
    {
        Value::Number(op.apply(self.number(left), self.number(right)))
    }

    /// The command at hand is done, and defines a register.
    fn define(&mut self, value: Value)
        requires { self.old.at < 16 }
        ensures { Defined self.old value self.new }
    {
        self.at += 1;
        self.registers.push(value);
    }

    /// The command at hand makes a modifiable, and the function waits behind it.
    fn make(self, function: usize, named: &[usize]) -> Next
        requires at { self.at < 16 }
        requires function { function < 64 }
        requires named { length named.now ≤ 6 }
        ensures { (P : View) → told P result ≡ makes function (map (register (held self)) named.now) (behind P self) }
    {
        let mut running = self;
        running.at += 1;
        Next::Makes {
            function: function as u8,
            args: self.pick(named),
            rest: Waiting { running },
        }
    }

    /// What the tail does.
    fn finish(&self, tail: &Tail) -> Next
        requires { TailFits (tail_viewed tail.now) }
        ensures { (P : View) → told P result ≡ finish (tail_viewed tail.now) (held self.now) }
    {
        match tail {
            Tail::Put { number } => Next::Writes(Content::Number(self.number(*number))),
            Tail::Nil => Next::Writes(Content::Empty),
            Tail::Con { head, tail } => Next::Writes(Content::Cell {
                head: self.name(*head),
                tail: self.name(*tail),
            }),
            Tail::Get {
                source,
                function,
                args,
            } => Next::Reads {
                source: self.name(*source),
                reader: Reader::Get {
                    function: *function as u8,
                    args: self.pick(args),
                },
            },
            Tail::Cas {
                source,
                empty,
                cell,
                args,
            } => Next::Reads {
                source: self.name(*source),
                reader: Reader::Cas {
                    empty: *empty as u8,
                    cell: *cell as u8,
                    args: self.pick(args),
                },
            },
        }
    }

    /// What the function does next: a NEW that its commands come to, or what its tail does behind the last.
    pub fn next(self, program: &Program) -> Next
        ensures { told (viewed program.now) result ≡ next (viewed program.now) (shown (viewed program.now) self) }
    {
        let Some(function) = program.functions.get(self.function as usize) else {
            return Next::Writes(Content::Empty);
        };
        let mut code = self;
        // The number of the command at hand is what a function that waits keeps, so the loop goes by it.
        while let Some(command) = function.commands.get(code.at as usize) {
            match command {
                Command::Lit { value } => code.define(Value::Number(*value)),
                Command::Apply { op, left, right } => {
                    let value = code.apply(*op, *left, *right);
                    code.define(value);
                }
                Command::New {
                    function: made,
                    args,
                } => return code.make(*made, args),
            }
        }
        code.finish(&function.tail)
    }
}
