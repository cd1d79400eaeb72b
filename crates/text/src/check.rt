ghost use Rattle.std.specs.Prelude.{◌≡◌};
ghost use Rattle.text.specs.First.{answer};
ghost use Rattle.text.specs.Lines.{text_fault};
ghost use Rattle.text.specs.Laws.{FieldsAreColumns, ColumnsReadBack, WordsReadBack, WordsAreSpelled, TextsAreRendered, LinesReadBack, RenderedOnce};

use crate::line::LineFault;
use crate::lines::Lines;

// The most bytes of a text. The rules tell a wrong length of the text at line 0.
const LONGEST: usize = 65536;

// The first fault of layer 1. The laws of texts stand beside its answer in check_lines, once and not at each return.
fn check_each(text: &[u8]) -> Result<(), LineFault>
    ensures { result ≡ answer tt (text_fault text.now) }
{
    if text.is_empty() || text.len() > LONGEST {
        return Err(LineFault::Length { line: 0 });
    }
    let mut lines = Lines::of(text);
    while let Some(line) = lines.tell_next() {
        line?;
    }
    Ok(())
}

// Layer 1: the length of the text, and each line's length, word and fields.
pub fn check_lines(text: &[u8]) -> Result<(), LineFault>
    ensures value { result ≡ answer tt (text_fault text.now) }
    ensures fields { FieldsAreColumns }
    ensures columns { ColumnsReadBack }
    ensures words { WordsReadBack }
    ensures letters { WordsAreSpelled }
    ensures texts { TextsAreRendered }
    ensures lines { LinesReadBack }
    ensures once { RenderedOnce }
{
    check_each(text)
}
