ghost use Rattle.std.specs.Prelude.{◌≡◌, ◌++◌, replicate, OnOk, IfOk};
ghost use Rattle.text.specs.declared.fields.Kind.TheVariants.{ModNumber, ModList};
ghost use Rattle.text.specs.Values.{values};
ghost use Rattle.kinds.specs.Kinds.{known_after, unknown};
ghost use Rattle.kinds.specs.Held.{heads_held, heads_known, known};

use crate::registers::{kind_or_number, kinds_of};
use std::alloc::{AllocError, Global};
use std::iter;
use text::fields::{Fields, Kind};
use text::line::{Parts, Word};

// What is known at a line: the heads of all functions, the kinds of the registers so far (behind INP, of the inputs),
// and the result kind of the function.
#[derive(Drop)]
pub struct Scope<'a> {
    pub(crate) heads: Vec<Fields<'a>>,
    pub(crate) kinds: Vec<Kind>,
    pub(crate) result: Kind,
}

impl<'a> Scope<'a> {
    // Before the first FUN no rule asks for the result kind; an Option would be taken apart at each line of a function.
    pub(crate) fn of(heap: Global, heads: Vec<Fields<'a>>) -> Scope<'a>
        ensures heads { heads_known result ≡ heads_held heads.entry.items }
        ensures known { known result ≡ unknown }
    {
        Scope {
            heads,
            kinds: Vec::new(heap),
            result: Kind::Number,
        }
    }

    // Takes a line in: what is known behind it.
    pub(crate) fn pass(&mut self, heap: Global, line: Parts<'_>) -> Result<(), AllocError>
        ensures heads { heads_known self.new ≡ heads_known self.old }
        ensures known { OnOk result (known self.new ≡ known_after (heads_known self.old) (known self.old) (line.entry.word, values line.entry.fields)) }
    {
        let Parts { word, fields, .. } = line;
        match word {
            Word::Inp => {
                let numbers = fields.index(0).unwrap_or(0);
                let lists = fields.index(1).unwrap_or(0);
                self.kinds = input_kinds(heap, numbers, lists)?;
                Ok(())
            }
            Word::Fun => {
                self.kinds = kinds_of(heap, fields.skip(1))?;
                self.result = kind_or_number(fields.kind(0));
                Ok(())
            }
            Word::Lit | Word::Add | Word::Sub | Word::Mul | Word::Div | Word::Min | Word::Max => {
                self.kinds.push(Kind::Number)?;
                Ok(())
            }
            Word::New => {
                let head = self.head_of(fields.index(0));
                self.kinds.push(kind_or_number(head.kind(0)))?;
                Ok(())
            }
            Word::Run | Word::Put | Word::Nil | Word::Con | Word::Get | Word::Cas => Ok(()),
        }
    }
}

// The kinds of the inputs: first those with a number.
fn input_kinds(heap: Global, numbers: usize, lists: usize) -> Result<Vec<Kind>, AllocError>
    ensures { IfOk result (λ v. v.items ≡ replicate numbers ModNumber ++ replicate lists ModList) }
{
    iter::repeat_n(Kind::ModNumber, numbers)
        .chain(iter::repeat_n(Kind::ModList, lists))
        .collect(heap)
}
