ghost use Rattle.std.specs.Prelude.{◌≡◌};
ghost use Rattle.kinds.specs.Faults.{number_of, layer_of, line_at};
ghost use Rattle.kinds.specs.declared.fault.KindFault.TheVariants.{Shape as OfShape};
ghost use Rattle.kinds.specs.declared.fault.Refusal.TheVariants.{Fault, Memory};

use shape::fault::ShapeFault;
use std::alloc::AllocError;
use std::error::Error;
use std::fmt;
use text::line::LineFault;

// A fault of layer 1 or 2, or one of layer 3: a register, function or input that is not there, kinds or argument numbers
// that disagree. Each names its line, as the faults do that stand whole in it.
#[derive(Clone, Copy, PartialEq, Eq, Debug)]
pub enum KindFault {
    Shape(ShapeFault),
    Missing { line: usize },
    Kinds { line: usize },
}

// Why a text is not taken: its fault, or want of memory.
#[derive(Clone, Copy, PartialEq, Eq, Debug)]
pub enum Refusal {
    Fault(KindFault),
    Memory,
}

impl From<ShapeFault> for KindFault {
    ghost from_gives = { λ f s. s ≡ OfShape f };

    fn from(f: ShapeFault) -> KindFault {
        KindFault::Shape(f)
    }
}

impl From<KindFault> for Refusal {
    ghost from_gives = { λ f s. s ≡ Fault f };

    fn from(f: KindFault) -> Refusal {
        Refusal::Fault(f)
    }
}

impl From<ShapeFault> for Refusal {
    ghost from_gives = { λ f s. s ≡ Fault (OfShape f) };

    fn from(f: ShapeFault) -> Refusal {
        Refusal::Fault(KindFault::from(f))
    }
}

impl From<AllocError> for Refusal {
    ghost from_gives = { λ f s. s ≡ Memory };

    fn from(_e: AllocError) -> Refusal {
        Refusal::Memory
    }
}

impl KindFault {
    // The number that the writer of the text is told.
    pub fn number(self) -> u8
        ensures { result ≡ number_of self }
    {
        match self {
            KindFault::Shape(ShapeFault::Line(LineFault::Length { .. })) => 1,
            KindFault::Shape(ShapeFault::Line(LineFault::Word { .. })) => 2,
            KindFault::Shape(ShapeFault::Line(LineFault::Field { .. })) => 3,
            KindFault::Shape(ShapeFault::Position { .. }) => 4,
            KindFault::Shape(ShapeFault::Count { .. }) => 5,
            KindFault::Shape(ShapeFault::Range { .. }) => 6,
            KindFault::Missing { .. } => 7,
            KindFault::Kinds { .. } => 8,
        }
    }

    // The layer of the rule that is broken.
    pub fn layer(self) -> u8
        ensures { result ≡ layer_of self }
    {
        match self {
            KindFault::Shape(ShapeFault::Line(_)) => 1,
            KindFault::Shape(
                ShapeFault::Position { .. } | ShapeFault::Count { .. } | ShapeFault::Range { .. },
            ) => 2,
            KindFault::Missing { .. } | KindFault::Kinds { .. } => 3,
        }
    }

    // The line that breaks it, or 0 where it is the length of the text.
    pub fn line(self) -> usize
        ensures { result ≡ line_at self }
    {
        match self {
            KindFault::Shape(
                ShapeFault::Line(
                    LineFault::Length { line }
                    | LineFault::Word { line }
                    | LineFault::Field { line },
                ),
            ) => line,
            KindFault::Shape(
                ShapeFault::Position { line }
                | ShapeFault::Count { line }
                | ShapeFault::Range { line },
            ) => line,
            KindFault::Missing { line } | KindFault::Kinds { line } => line,
        }
    }
}

// What the writer of the text is told.
impl fmt::Display for KindFault {
    ghost use Rattle.std.specs.Prelude.{Some};
    ghost use Rattle.kinds.specs.Faults.{words_of};

    ghost output = { λ f. Some (words_of f) };

    fn fmt<W: fmt::Write>(&self, f: &mut fmt::Formatter<W>) -> fmt::Result {
        let number = self.number();
        let line = self.line();
        let layer = self.layer();
        write!(f, "fault {number} line {line} layer {layer}")
    }
}

impl Error for KindFault {}
