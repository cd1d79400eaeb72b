ghost use Rattle.std.specs.Prelude.{◌≡◌};
ghost use Rattle.shape.specs.declared.fault.ShapeFault.TheVariants.{Line as OfLine};

use text::line::LineFault;

// A fault of layer 1, or one of layer 2: a line out of position or a text that ends early, a wrong count of fields,
// a range or a limit passed. Each names its line, as a fault of layer 1 does, which is whole in it.
#[derive(Clone, Copy, PartialEq, Eq, Debug)]
pub enum ShapeFault {
    Line(LineFault),
    Position { line: usize },
    Count { line: usize },
    Range { line: usize },
}

impl From<LineFault> for ShapeFault {
    ghost from_gives = { λ f s. s ≡ OfLine f };

    fn from(f: LineFault) -> ShapeFault {
        ShapeFault::Line(f)
    }
}
