ghost use Rattle.std.specs.Prelude.{◌≡◌, ◌<◌, length, IfSome, MatchResult};
ghost use Rattle.text.specs.Lines.{line_end};
ghost use Rattle.text.specs.Told.{numbered, said};
ghost use Rattle.text.specs.Reader.{Reads, Falls};

use crate::line::{Line, LineFault, read};

// Where the first line ends, if a byte 10 ends it.
pub fn line_end_of(text: &[u8]) -> Option<usize>
    ensures value { result ≡ line_end 0 text.now }
    ensures bound { IfSome result (λ i. i < length text.now) }
{
    text.iter().position(|b| *b == b'\n')
}

// The first line, which bears this number, and what stands behind it. Inlined, as `Lines::tell_next` is.
#[inline(always)]
pub(crate) fn first_line<'a>(
    number: usize,
    text: &'a [u8],
) -> Result<(Line<'a>, &'a [u8]), LineFault>
    requires { 0 < length text.now }
    ensures { MatchResult result (λ p. Reads number text.now (numbered p.0, said p.0) p.1.now) (λ f. Falls number text.now f) }
{
    let Some(end) = line_end_of(text) else {
        return Err(LineFault::Length { line: number });
    };
    let line = read(number, &text[0..end])?;
    Ok((line, &text[end + 1..]))
}
