// Why calls on a sheet are refused.
ghost use Rattle.std.specs.Prelude.{◌≡◌};
ghost use Rattle.sheet.specs.Refusals.{number_of, make_number_of};

use program::program::Program;

/// Why a call on a sheet is refused. A refused call changes nothing.
#[derive(Clone, Copy, PartialEq, Eq, Debug)]
pub enum Refusal {
    /// The pass bears another number, or the sheet is in another state.
    WrongPass = 13,
    /// There is no such input.
    NoSuchInput = 14,
    /// A content of the other kind.
    OtherKind = 15,
    /// A cell that names an input that is missing or of the wrong kind.
    WrongCell = 16,
    /// No record has this number.
    NoSuchLine = 24,
}

impl Refusal {
    /// The number by which the refusal is told.
    // A cast to the discriminant names its enum, so each enum of refusals has this method; `u8::from` would not say what it gives.
    pub fn number(self) -> u8
        ensures { result ≡ number_of self }
    {
        self as u8
    }
}

/// A refused call hands the pass back.
pub struct Refused<P> {
    pub refusal: Refusal,
    pub pass: P,
}

/// Why no sheet is made.
#[derive(Clone, Copy, PartialEq, Eq, Debug)]
pub enum MakeRefusal {
    /// The limit is not 1 to 512.
    Limit = 11,
    /// The list has not room for the stamps: its capacity is below 4L + 1.
    Capacity = 12,
}

impl MakeRefusal {
    /// The number by which the refusal is told.
    // A cast to the discriminant names its enum, so each enum of refusals has this method; `u8::from` would not say what it gives.
    pub fn number(self) -> u8
        ensures { result ≡ make_number_of self }
    {
        self as u8
    }
}

/// What was handed in where no sheet was made.
pub struct Unmade<O> {
    pub refusal: MakeRefusal,
    pub list: O,
    pub program: Program,
}
