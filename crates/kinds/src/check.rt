ghost use Rattle.std.specs.Prelude.{◌≡◌, IfOk, None};
ghost use Rattle.text.specs.Lines.{text_fault, lines_of};
ghost use Rattle.kinds.specs.Kinds.{heads_of, fault_of};
ghost use Rattle.kinds.specs.Held.{heads_held, Tells};
ghost use Rattle.kinds.specs.Laws.{Judged};

use crate::fault::Refusal;
use crate::scope::Scope;
use shape::check::check_shape;
use std::alloc::{AllocError, Global};
use text::fields::Fields;
use text::line::{Parts, Word};
use text::lines::Lines;

// The heads of the functions, in order: the fields of the FUN lines.
fn heads<'a>(heap: Global, text: &'a [u8]) -> Result<Vec<Fields<'a>>, AllocError>
    requires { text_fault text.now ≡ None }
    ensures { IfOk result (λ v. heads_held v.items ≡ heads_of (lines_of text.now)) }
{
    let mut heads = Vec::new(heap);
    for line in Lines::of(text) {
        let Parts { word, fields, .. } = line.parts();
        if word == Word::Fun {
            heads.push(fields)?;
        }
    }
    Ok(heads)
}

// The fault that is told of a text, if it has one. What it means for the text stands once, on check_kinds.
fn check_rules(heap: Global, text: &[u8]) -> Result<(), Refusal>
    ensures { Tells result (fault_of text.now) }
{
    check_shape(text)?;
    let heads = heads(heap, text)?;
    let mut scope = Scope::of(heap, heads);
    for line in Lines::of(text) {
        let parts = line.parts();
        scope.judge(parts)?;
        scope.pass(heap, parts)?;
    }
    Ok(())
}

// All three layers: whether a text keeps the rules, or else its least fault.
pub fn check_kinds(heap: Global, text: &[u8]) -> Result<(), Refusal>
    ensures tells { Tells result (fault_of text.now) }
    ensures judged { Judged text.now result }
{
    check_rules(heap, text)
}
