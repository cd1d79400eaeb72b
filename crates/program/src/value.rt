// What a sheet computes with.
ghost use Rattle.std.specs.Prelude.{◌≡◌};
ghost use Rattle.program.specs.Contents.{content_of_input};

/// A modifiable (a place that can be read and, in a later run, hold something else): an input, or the one that the NEW
/// record at a place made.
#[derive(Clone, Copy, PartialEq, Eq, Debug)]
pub enum Name {
    Input(u16),
    Made(u16),
}

/// What a modifiable holds: the empty list, a number, or a list's cell with a number's modifiable and a list's.
#[derive(Clone, Copy, PartialEq, Eq, Debug)]
pub enum Content {
    Empty,
    Number(i32),
    Cell { head: Name, tail: Name },
}

/// What an input is set to: the empty list, a number, or a cell of two inputs.
// Beside Content, and not one type with a parameter for what a cell names: each definition of the meaning would carry it.
#[derive(Clone, Copy, PartialEq, Eq, Debug)]
pub enum InputContent {
    Empty,
    Number(i32),
    Cell { head: u16, tail: u16 },
}

/// What a register holds.
#[derive(Clone, Copy, PartialEq, Eq, Debug)]
pub enum Value {
    Number(i32),
    Mod(Name),
}

impl From<InputContent> for Content {
    ghost from_gives = { λ input content. content ≡ content_of_input input };

    fn from(input: InputContent) -> Content {
        match input {
            InputContent::Empty => Content::Empty,
            InputContent::Number(number) => Content::Number(number),
            InputContent::Cell { head, tail } => Content::Cell {
                head: Name::Input(head),
                tail: Name::Input(tail),
            },
        }
    }
}
