ghost use Rattle.std.specs.Prelude.{◌≡◌};
ghost use Rattle.text.specs.First.{answer};
ghost use Rattle.shape.specs.Shapes.{shape_fault};

use crate::fault::ShapeFault;
use crate::standing::Standing;
use text::check::check_lines;
use text::lines::Lines;

// Layers 1 and 2.
pub fn check_shape(text: &[u8]) -> Result<(), ShapeFault>
    ensures { result ≡ answer tt (shape_fault text.now) }
{
    check_lines(text)?;
    let mut lines = Lines::of(text).peekable();
    let mut standing = Standing::default();
    while let Some(line) = lines.next() {
        standing = standing.take(line, lines.peek().is_none())?;
    }
    Ok(())
}
