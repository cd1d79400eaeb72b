ghost use Rattle.std.specs.Prelude.{◌≡◌, length};
ghost use Rattle.text.specs.Lines.{line_of};
ghost use Rattle.text.specs.Told.{told, numbered, said, told_line};

use crate::fields::{Fields, WIDTH, all_stand};

// The columns of nine fields.
const MOST_COLUMNS: usize = 9 * WIDTH;

// The words that a line may begin with.
#[derive(Clone, Copy, PartialEq, Eq, Debug)]
pub enum Word {
    Inp,
    Run,
    Fun,
    Lit,
    Add,
    Sub,
    Mul,
    Div,
    Min,
    Max,
    New,
    Put,
    Nil,
    Con,
    Get,
    Cas,
}

// A line of a text, by its form, with its number; its fields are parts of the text. The project keeps lines as forms
// that borrow their fields, so each form has them in it.
#[derive(Clone, Copy)]
pub enum Line<'a> {
    Inputs {
        number: usize,
        fields: Fields<'a>,
    },
    Run {
        number: usize,
        fields: Fields<'a>,
    },
    Function {
        number: usize,
        fields: Fields<'a>,
    },
    Command {
        number: usize,
        word: Word,
        fields: Fields<'a>,
    },
    Tail {
        number: usize,
        word: Word,
        fields: Fields<'a>,
    },
}

// A line taken apart: its number, its word and its fields.
#[derive(Clone, Copy)]
pub struct Parts<'a> {
    pub number: usize,
    pub word: Word,
    pub fields: Fields<'a>,
}

// The faults of layer 1: a wrong length of the text or of a line, an unknown word, a field that is no number.
// Each names its line, and stands whole in the faults above: with a struct of a line and a kind, whoever matches a fault would take two steps for one.
#[derive(Clone, Copy, PartialEq, Eq, Debug)]
pub enum LineFault {
    Length { line: usize },
    Word { line: usize },
    Field { line: usize },
}

impl<'a> Line<'a> {
    // The line's number, its word and its fields.
    pub fn parts(self) -> Parts<'a>
        ensures { told result ≡ (numbered self.entry, said self.entry) }
    {
        match self {
            Line::Inputs { number, fields } => Parts {
                number,
                word: Word::Inp,
                fields,
            },
            Line::Run { number, fields } => Parts {
                number,
                word: Word::Run,
                fields,
            },
            Line::Function { number, fields } => Parts {
                number,
                word: Word::Fun,
                fields,
            },
            Line::Command {
                number,
                word,
                fields,
            }
            | Line::Tail {
                number,
                word,
                fields,
            } => Parts {
                number,
                word,
                fields,
            },
        }
    }
}

// Three bytes that spell no word.
#[derive(Clone, Copy, PartialEq, Eq, Debug)]
pub struct UnknownWord(pub [u8; 3]);

impl TryFrom<[u8; 3]> for Word {
    ghost use Rattle.text.specs.Lines.{Spells};

    type Error = UnknownWord;

    ghost try_from_gives = { Spells };

    fn try_from(letters: [u8; 3]) -> Result<Word, UnknownWord> {
        match &letters {
            b"INP" => Ok(Word::Inp),
            b"RUN" => Ok(Word::Run),
            b"FUN" => Ok(Word::Fun),
            b"LIT" => Ok(Word::Lit),
            b"ADD" => Ok(Word::Add),
            b"SUB" => Ok(Word::Sub),
            b"MUL" => Ok(Word::Mul),
            b"DIV" => Ok(Word::Div),
            b"MIN" => Ok(Word::Min),
            b"MAX" => Ok(Word::Max),
            b"NEW" => Ok(Word::New),
            b"PUT" => Ok(Word::Put),
            b"NIL" => Ok(Word::Nil),
            b"CON" => Ok(Word::Con),
            b"GET" => Ok(Word::Get),
            b"CAS" => Ok(Word::Cas),
            _ => Err(UnknownWord(letters)),
        }
    }
}

impl<'a> From<Parts<'a>> for Line<'a> {
    ghost use Rattle.std.specs.Prelude.{◌≡◌};
    ghost use Rattle.text.specs.Told.{told, numbered, said};

    ghost from_gives = { λ p l. (numbered l, said l) ≡ told p };

    fn from(parts: Parts<'a>) -> Line<'a> {
        let Parts {
            number,
            word,
            fields,
        } = parts;
        match word {
            Word::Inp => Line::Inputs { number, fields },
            Word::Run => Line::Run { number, fields },
            Word::Fun => Line::Function { number, fields },
            Word::Lit
            | Word::Add
            | Word::Sub
            | Word::Mul
            | Word::Div
            | Word::Min
            | Word::Max
            | Word::New => Line::Command {
                number,
                word,
                fields,
            },
            Word::Put | Word::Nil | Word::Con | Word::Get | Word::Cas => Line::Tail {
                number,
                word,
                fields,
            },
        }
    }
}

// Line `number` of a text, without its byte 10.
pub(crate) fn read(number: usize, bytes: &[u8]) -> Result<Line<'_>, LineFault>
    ensures { told_line result ≡ line_of number bytes.now }
{
    let [a, b, c, columns @ ..] = bytes else {
        return Err(LineFault::Length { line: number });
    };
    if columns.len() % WIDTH != 0 || columns.len() > MOST_COLUMNS {
        return Err(LineFault::Length { line: number });
    }
    let Ok(word) = Word::try_from([*a, *b, *c]) else {
        return Err(LineFault::Word { line: number });
    };
    if !all_stand(columns) {
        return Err(LineFault::Field { line: number });
    }
    Ok(Line::from(Parts {
        number,
        word,
        fields: Fields::over(columns),
    }))
}
