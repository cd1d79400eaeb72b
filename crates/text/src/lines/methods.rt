ghost use Rattle.std.specs.Prelude.{◌≡◌};
ghost use Rattle.text.specs.Lines.{lines_in, standing};
ghost use Rattle.text.specs.Reader.{left, passed, unread, TellsNext};

use crate::cut::first_line;
use crate::line::{Line, LineFault};
use crate::lines::Lines;

impl<'a> Lines<'a> {
    // All lines of a text.
    pub fn of(text: &'a [u8]) -> Lines<'a>
        ensures left { left result ≡ standing 1 (lines_in text.now) }
        ensures passed { passed result ≡ 0 }
        ensures unread { unread result ≡ text.now }
    {
        Lines {
            rest: text,
            passed: 0,
        }
    }

    // The next line, or what it breaks of the rules of layer 1, if a line is left. Inlined, so that its callers move only the part
    // of the answer that they want.
    #[inline(always)]
    pub(crate) fn tell_next(&mut self) -> Option<Result<Line<'a>, LineFault>>
        ensures { TellsNext self.old result self.new }
    {
        if self.rest.is_empty() {
            return None;
        }
        let number = self.passed + 1;
        match first_line(number, self.rest) {
            Ok((line, rest)) => {
                *self = Lines {
                    rest,
                    passed: number,
                };
                Some(Ok(line))
            }
            Err(fault) => Some(Err(fault)),
        }
    }
}

impl<'a> Iterator for Lines<'a> {
    ghost use Rattle.std.specs.Iterator.{item_count};
    ghost use Rattle.text.specs.Reader.{left, HandsOut};

    type Item = Line<'a>;

    ghost next_gives = { HandsOut };

    ghost remaining = { item_count left };

    // The next line, if one is left and keeps the rules of layer 1.
    fn next(&mut self) -> Option<Line<'a>> {
        self.tell_next()?.ok()
    }
}
