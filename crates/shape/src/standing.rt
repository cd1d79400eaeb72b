ghost use Rattle.std.specs.Prelude.{◌≡◌, length, pos, false, slice_index_or, IsTrue};
ghost use Rattle.std.specs.Range.{range_inclusive_start, range_inclusive_end, range_inclusive_exhausted};
ghost use Rattle.text.specs.First.{answer};
ghost use Rattle.text.specs.Numbers.{whole_of};
ghost use Rattle.text.specs.Told.{numbered, said};
ghost use Rattle.text.specs.Values.{values};
ghost use Rattle.shape.specs.Parts.{part_of, placed, fewest, most, result_kind, all_kinds, head_stands, inputs_fit};
ghost use Rattle.shape.specs.Shapes.{ranged, behind_part, after, shape_rules};

use crate::fault::ShapeFault;
use std::ops::RangeInclusive;
use text::fields::{Fields, Kind};
use text::line::{Line, Parts, Word};

// The most functions of a text, commands and tails of a text, registers of a function, and inputs.
const FUNCTIONS: usize = 64;

const STEPS: usize = 512;

const REGISTERS: usize = 16;

pub const INPUTS: usize = 256;

// The parts of a text: INP, RUN, FUN, a command, a tail.
#[derive(Clone, Copy, PartialEq, Eq)]
pub enum Part {
    Inputs,
    Run,
    Head,
    Command,
    Tail,
}

// What has to come next: INP, RUN, FUN, or a command or tail.
#[derive(Clone, Copy, PartialEq, Eq, Default)]
pub enum Due {
    #[default]
    Inputs,
    Run,
    Head,
    Body,
}

// How things stand behind a line: what is due, how many functions and how many commands and tails there were, and how
// many registers the function has. The default is how they stand before the first line.
#[derive(Clone, Copy, Default)]
pub struct Standing {
    due: Due,
    functions: usize,
    steps: usize,
    registers: usize,
}

// The part of a text that a line of this word is. The forms of lines follow it, but layer 1 does not know the parts that this one
// makes rules of.
pub fn part_of(word: Word) -> Part
    ensures { result ≡ part_of word }
{
    match word {
        Word::Inp => Part::Inputs,
        Word::Run => Part::Run,
        Word::Fun => Part::Head,
        Word::Lit
        | Word::Add
        | Word::Sub
        | Word::Mul
        | Word::Div
        | Word::Min
        | Word::Max
        | Word::New => Part::Command,
        Word::Put | Word::Nil | Word::Con | Word::Get | Word::Cas => Part::Tail,
    }
}

fn in_place(due: Due, part: Part, last: bool) -> bool
    ensures { result ≡ placed due part last }
{
    match (due, part) {
        (Due::Inputs, Part::Inputs)
        | (Due::Run, Part::Run)
        | (Due::Head, Part::Head)
        | (Due::Body, Part::Command) => !last,
        (Due::Body, Part::Tail) => true,
        _ => false,
    }
}

// From the fewest fields of a line to the most.
fn field_counts(word: Word) -> RangeInclusive<usize>
    ensures fewest { range_inclusive_start result ≡ fewest word }
    ensures most { range_inclusive_end result ≡ most word }
    ensures unused { range_inclusive_exhausted result ≡ false }
{
    match word {
        Word::Inp
        | Word::Add
        | Word::Sub
        | Word::Mul
        | Word::Div
        | Word::Min
        | Word::Max
        | Word::Con => 2..=2,
        Word::Run => 0..=6,
        Word::Lit | Word::Put => 1..=1,
        Word::Fun | Word::New => 1..=7,
        Word::Nil => 0..=0,
        Word::Get => 2..=7,
        Word::Cas => 3..=7,
    }
}

fn is_result(kind: Option<Kind>) -> bool
    ensures { result ≡ result_kind kind }
{
    matches!(kind, Some(Kind::ModNumber | Kind::ModList))
}

fn are_kinds(fields: Fields<'_>) -> bool
    ensures { result ≡ all_kinds (values fields.entry) }
{
    fields
        .numbers()
        .all(|number| Kind::try_from(number).is_ok())
}

// Whether these are a result's kind and parameters' kinds.
fn is_head(fields: Fields<'_>) -> bool
    ensures { result ≡ head_stands (values fields.entry) }
{
    is_result(fields.kind(0)) && are_kinds(fields.skip(1))
}

// Whether these are a count of numbers and a count of lists, together no more than there may be inputs.
fn inputs_in_range(fields: Fields<'_>) -> bool
    ensures { result ≡ inputs_fit (whole_of (slice_index_or (values fields.entry) 0 (pos 0))) (whole_of (slice_index_or (values fields.entry) 1 (pos 0))) }
{
    let (Some(numbers), Some(lists)) = (fields.index(0), fields.index(1)) else {
        return false;
    };
    (1..=INPUTS).contains(&numbers.saturating_add(lists))
}

impl Standing {
    // Whether a line passes no range and no limit.
    fn allows(&self, part: Part, fields: Fields<'_>) -> bool
        ensures { result ≡ ranged self.now part (values fields.entry) }
    {
        match part {
            Part::Inputs => inputs_in_range(fields),
            Part::Run => true,
            Part::Head => self.functions < FUNCTIONS && is_head(fields),
            Part::Command => self.steps < STEPS && self.registers < REGISTERS,
            Part::Tail => self.steps < STEPS,
        }
    }

    // How things stand behind a line that passes no range and no limit.
    fn behind(&self, part: Part, fields: Fields<'_>) -> Standing
        requires { IsTrue (ranged self.now part (values fields)) }
        ensures { result ≡ behind_part self.now part (length (values fields.entry)) }
    {
        match part {
            Part::Inputs => Standing {
                due: Due::Run,
                ..*self
            },
            Part::Run => Standing {
                due: Due::Head,
                ..*self
            },
            Part::Head => Standing {
                due: Due::Body,
                functions: self.functions + 1,
                registers: fields.count().saturating_sub(1),
                ..*self
            },
            Part::Command => Standing {
                due: Due::Body,
                steps: self.steps + 1,
                registers: self.registers + 1,
                ..*self
            },
            Part::Tail => Standing {
                due: Due::Head,
                steps: self.steps + 1,
                ..*self
            },
        }
    }

    // How things stand behind a line, where no rule of this layer refuses it; `last`: the text ends with it.
    pub(crate) fn take(&self, line: Line<'_>, last: bool) -> Result<Standing, ShapeFault>
        ensures { result ≡ answer (after self.now (said line.entry)) (shape_rules self.now (numbered line.entry) (said line.entry) last) }
    {
        let Parts {
            number,
            word,
            fields,
        } = line.parts();
        let part = part_of(word);
        if !in_place(self.due, part, last) {
            return Err(ShapeFault::Position { line: number });
        }
        if !field_counts(word).contains(&fields.count()) {
            return Err(ShapeFault::Count { line: number });
        }
        if !self.allows(part, fields) {
            return Err(ShapeFault::Range { line: number });
        }
        Ok(self.behind(part, fields))
    }
}
