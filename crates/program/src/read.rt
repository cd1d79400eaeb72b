// What a text that keeps the rules says, line by line.
ghost use Rattle.std.specs.Prelude.{◌≡◌, ◌∷◌, ◌++◌, pos, IfOk, None, slice_index_or};
ghost use Rattle.std.specs.List.{flat_map};
ghost use Rattle.text.specs.declared.line.Word.TheVariants.{Fun as OfFun};
ghost use Rattle.text.specs.Lines.{lines_of};
ghost use Rattle.text.specs.Reader.{left};
ghost use Rattle.text.specs.Values.{values};
ghost use Rattle.shape.specs.declared.standing.Part.TheVariants.{Command as OfCommand, Tail as OfTail};
ghost use Rattle.shape.specs.declared.standing.Due.TheVariants.{Head as DueHead, Body as DueBody};
ghost use Rattle.shape.specs.Parts.{part_of};
ghost use Rattle.kinds.specs.Kinds.{fault_of};
ghost use Rattle.program.specs.Programs.{op_word, command_line, tail_line, function_lines};
ghost use Rattle.program.specs.Formed.{entry_of, entries, Held, Formed, Gives};
ghost use Rattle.program.specs.Says.{program_lines};

use crate::arith::Op;
use crate::function::{Command, Function, Tail};
use crate::program::Program;
use kinds::registers::{kind_or_number, kinds_of};
use shape::standing::{Part, part_of};
use std::alloc::{AllocError, Global};
use text::fields::Fields;
use text::line::{Parts, Word};
use text::lines::Lines;

// What field j names.
fn entry(fields: Fields<'_>, j: usize) -> usize
    ensures { result ≡ entry_of (slice_index_or (values fields.entry) j (pos 0)) }
{
    fields.index(j).unwrap_or(0)
}

fn entries_of(heap: Global, fields: Fields<'_>) -> Result<Vec<usize>, AllocError>
    ensures { IfOk result (λ v. v.items ≡ entries (values fields.entry)) }
{
    fields
        .numbers()
        .map(|number| usize::try_from(number).unwrap_or(0))
        .collect(heap)
}

fn read_apply(op: Op, fields: Fields<'_>) -> Command
    requires { Held (op_word op) (values fields) }
    ensures { command_line result ≡ (op_word op, values fields.entry) }
{
    Command::Apply {
        op,
        left: entry(fields, 0),
        right: entry(fields, 1),
    }
}

fn read_command(heap: Global, line: Parts<'_>) -> Result<Command, AllocError>
    requires part { part_of line.word ≡ OfCommand }
    requires held { Held line.word (values line.fields) }
    ensures { IfOk result (λ c. command_line c ≡ (line.entry.word, values line.entry.fields)) }
{
    let Parts { word, fields, .. } = line;
    // Each word has its arm: a conversion of words to operations would leave the others to a second match.
    match word {
        Word::Lit => Ok(Command::Lit {
            value: fields.number(0),
        }),
        Word::Add => Ok(read_apply(Op::Add, fields)),
        Word::Sub => Ok(read_apply(Op::Sub, fields)),
        Word::Mul => Ok(read_apply(Op::Mul, fields)),
        Word::Div => Ok(read_apply(Op::Div, fields)),
        Word::Min => Ok(read_apply(Op::Min, fields)),
        Word::Max => Ok(read_apply(Op::Max, fields)),
        Word::New => Ok(Command::New {
            function: entry(fields, 0),
            args: entries_of(heap, fields.skip(1))?,
        }),
        Word::Inp
        | Word::Run
        | Word::Fun
        | Word::Put
        | Word::Nil
        | Word::Con
        | Word::Get
        | Word::Cas => unreachable(),
    }
}

fn read_tail(heap: Global, line: Parts<'_>) -> Result<Tail, AllocError>
    requires part { part_of line.word ≡ OfTail }
    requires held { Held line.word (values line.fields) }
    ensures { IfOk result (λ t. tail_line t ≡ (line.entry.word, values line.entry.fields)) }
{
    let Parts { word, fields, .. } = line;
    match word {
        Word::Put => Ok(Tail::Put {
            number: entry(fields, 0),
        }),
        Word::Nil => Ok(Tail::Nil),
        Word::Con => Ok(Tail::Con {
            head: entry(fields, 0),
            tail: entry(fields, 1),
        }),
        Word::Get => Ok(Tail::Get {
            source: entry(fields, 0),
            function: entry(fields, 1),
            args: entries_of(heap, fields.skip(2))?,
        }),
        Word::Cas => Ok(Tail::Cas {
            source: entry(fields, 0),
            empty: entry(fields, 1),
            cell: entry(fields, 2),
            args: entries_of(heap, fields.skip(3))?,
        }),
        Word::Inp
        | Word::Run
        | Word::Fun
        | Word::Lit
        | Word::Add
        | Word::Sub
        | Word::Mul
        | Word::Div
        | Word::Min
        | Word::Max
        | Word::New => unreachable(),
    }
}

// The function with this head, from the lines up to its tail.
fn read_function(
    heap: Global,
    head: Fields<'_>,
    lines: &mut Lines<'_>,
) -> Result<Function, AllocError>
    requires head { Held OfFun (values head) }
    requires body { Formed DueBody (left lines.old) }
    ensures { IfOk result (λ f. ((OfFun, values head.entry) ∷ left lines.old ≡ function_lines f ++ left lines.new) × Formed DueHead (left lines.new)) }
{
    let result = kind_or_number(head.kind(0));
    let params = kinds_of(heap, head.skip(1))?;
    let mut commands = Vec::new(heap);
    // A `for` over the lent reader leaves unknown what is left in it, so the proof does not close.
    while let Some(line) = lines.next() {
        let line = line.parts();
        if part_of(line.word) == Part::Tail {
            let tail = read_tail(heap, line)?;
            return Ok(Function {
                result,
                params,
                commands,
                tail,
            });
        }
        commands.push(read_command(heap, line)?)?;
    }
    unreachable()
}

fn read_functions(heap: Global, mut lines: Lines<'_>) -> Result<Vec<Function>, AllocError>
    requires { Formed DueHead (left lines) }
    ensures { IfOk result (λ fs. flat_map function_lines fs.items ≡ left lines.entry) }
{
    let mut functions = Vec::new(heap);
    // Each turn reads on to the end of a function, so that no `for` can hold the reader.
    while let Some(line) = lines.next() {
        let head = line.parts().fields;
        functions.push(read_function(heap, head, &mut lines)?)?;
    }
    Ok(functions)
}

// The fields of the next line.
fn next_fields<'a>(lines: &mut Lines<'a>) -> Fields<'a>
    ensures { Gives (left lines.old) (values result) (left lines.new) }
{
    lines
        .next()
        .map_or(Fields::none(), |line| line.parts().fields)
}

// The program that a text without a fault says.
pub(crate) fn read_program(heap: Global, text: &[u8]) -> Result<Program, AllocError>
    requires { fault_of text.now ≡ None }
    ensures { IfOk result (λ p. program_lines p ≡ lines_of text.now) }
{
    let mut lines = Lines::of(text);
    let inputs = next_fields(&mut lines);
    let run = entries_of(heap, next_fields(&mut lines))?;
    let functions = read_functions(heap, lines)?;
    Ok(Program {
        numbers: entry(inputs, 0),
        lists: entry(inputs, 1),
        run,
        functions,
    })
}
