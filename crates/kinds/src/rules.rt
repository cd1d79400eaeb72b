ghost use Rattle.std.specs.Prelude.{◌≡◌, false, vec_len};
ghost use Rattle.text.specs.Values.{values};
ghost use Rattle.text.specs.First.{answer};
ghost use Rattle.kinds.specs.Named.{names, below, there, all_there};
ghost use Rattle.kinds.specs.Kinds.{same_kind, kind_in, head_in, is_kind, starts, takes, accepts, entered, agrees, kind_rules};
ghost use Rattle.kinds.specs.Held.{heads_known, known};

use crate::fault::KindFault;
use crate::scope::Scope;
use text::fields::{Fields, Kind};
use text::line::{Parts, Word};

// What a field names: nothing, a register (of RUN, an input) or a function.
#[derive(Clone, Copy, PartialEq, Eq)]
pub enum Names {
    Value,
    Register,
    Function,
}

fn names_of(word: Word, j: usize) -> Names
    ensures { result ≡ names word j }
{
    match (word, j) {
        (Word::Inp | Word::Fun | Word::Lit | Word::Nil, _) => Names::Value,
        (Word::New, 0) | (Word::Get, 1) | (Word::Cas, 1 | 2) => Names::Function,
        _ => Names::Register,
    }
}

fn is_below(n: usize, v: Option<usize>) -> bool
    ensures { result ≡ below n v }
{
    v.is_some_and(|i| i < n)
}

// Whether there are two kinds, and they are one.
fn same(a: Option<Kind>, b: Option<Kind>) -> bool
    ensures { result ≡ same_kind a b }
{
    a.is_some_and(|kind| b == Some(kind))
}

// Whether parameters begin with these kinds.
fn begin_with(lead: &[Kind], params: Fields<'_>) -> bool
    ensures { result ≡ starts lead.now (values params.entry) }
{
    lead.iter()
        .enumerate()
        .all(|(j, kind)| params.kind(j) == Some(*kind))
}

impl<'a> Scope<'a> {
    // The fault of a line, if it has one.
    pub(crate) fn judge(&self, line: Parts<'_>) -> Result<(), KindFault>
        ensures { result ≡ answer tt (kind_rules (heads_known self.now) (known self.now) line.entry.number (line.entry.word, values line.entry.fields) false) }
    {
        let Parts {
            number,
            word,
            fields,
        } = line;
        if !self.has_all(word, fields) {
            return Err(KindFault::Missing { line: number });
        }
        if !self.agrees(word, fields) {
            return Err(KindFault::Kinds { line: number });
        }
        Ok(())
    }

    // Whether all that a line names is there.
    fn has_all(&self, word: Word, fields: Fields<'_>) -> bool
        ensures { result ≡ all_there (vec_len self.now.kinds) (vec_len self.now.heads) word 0 (values fields.entry) }
    {
        fields.numbers().enumerate().all(|(j, number)| self.has(
            names_of(word, j),
            usize::try_from(number).ok(),
        ))
    }

    fn has(&self, names: Names, v: Option<usize>) -> bool
        ensures { result ≡ there (vec_len self.now.kinds) (vec_len self.now.heads) names v }
    {
        match names {
            Names::Value => true,
            Names::Register => is_below(self.kinds.len(), v),
            Names::Function => is_below(self.heads.len(), v),
        }
    }

    // Whether kinds and numbers of arguments agree.
    fn agrees(&self, word: Word, fields: Fields<'_>) -> bool
        ensures { result ≡ agrees (heads_known self.now) self.now.kinds.items self.now.result word (values fields.entry) }
    {
        match word {
            Word::Inp | Word::Fun | Word::Lit => true,
            Word::Run => self.accepts(Some(0), &[], fields),
            Word::Add | Word::Sub | Word::Mul | Word::Div | Word::Min | Word::Max => {
                self.holds(fields, 0, Kind::Number) && self.holds(fields, 1, Kind::Number)
            }
            Word::New => self.accepts(fields.index(0), &[], fields.skip(1)),
            Word::Put => self.holds(fields, 0, Kind::Number) && self.result == Kind::ModNumber,
            Word::Nil => self.result == Kind::ModList,
            Word::Con => {
                self.holds(fields, 0, Kind::ModNumber)
                    && self.holds(fields, 1, Kind::ModList)
                    && self.result == Kind::ModList
            }
            Word::Get => {
                self.holds(fields, 0, Kind::ModNumber)
                    && self.enters(fields.index(1), &[Kind::Number], fields.skip(2))
            }
            Word::Cas => {
                let args = fields.skip(3);
                self.holds(fields, 0, Kind::ModList)
                    && self.enters(fields.index(1), &[], args)
                    && self.enters(fields.index(2), &[Kind::ModNumber, Kind::ModList], args)
            }
        }
    }

    // The kind of register v.
    fn kind_of(&self, v: Option<usize>) -> Option<Kind>
        ensures { result ≡ kind_in self.now.kinds.items v }
    {
        self.kinds.get(v?).copied()
    }

    // Whether field j names a register of this kind.
    fn holds(&self, fields: Fields<'_>, j: usize, kind: Kind) -> bool
        ensures { result ≡ is_kind self.now.kinds.items (values fields.entry) j kind }
    {
        self.kind_of(fields.index(j)) == Some(kind)
    }

    // The head of function v.
    pub(crate) fn head_of(&self, v: Option<usize>) -> Fields<'a>
        ensures { values result ≡ head_in (heads_known self.now) v }
    {
        let Some(i) = v else {
            return Fields::none();
        };
        self.heads.get(i).copied().unwrap_or(Fields::none())
    }

    // Whether the registers that arguments name are of the kinds of these parameters.
    fn takes(&self, args: Fields<'_>, params: Fields<'_>) -> bool
        ensures { result ≡ takes self.now.kinds.items (values args.entry) (values params.entry) }
    {
        args.count() == params.count()
            && args.numbers().zip(params.numbers()).all(|(arg, param)| {
                same(
                    self.kind_of(usize::try_from(arg).ok()),
                    Kind::try_from(param).ok(),
                )
            })
    }

    // Whether function v takes values of the kinds `lead`, then the arguments.
    fn accepts(&self, v: Option<usize>, lead: &[Kind], args: Fields<'_>) -> bool
        ensures { result ≡ accepts (head_in (heads_known self.now) v) lead.now self.now.kinds.items (values args.entry) }
    {
        let params = self.head_of(v).skip(1);
        begin_with(lead, params) && self.takes(args, params.skip(lead.len()))
    }

    // Whether a tail may enter function v so: the entered function takes these, and has the result kind of the one that it leaves.
    fn enters(&self, v: Option<usize>, lead: &[Kind], args: Fields<'_>) -> bool
        ensures { result ≡ entered (head_in (heads_known self.now) v) self.now.result lead.now self.now.kinds.items (values args.entry) }
    {
        self.head_of(v).kind(0) == Some(self.result) && self.accepts(v, lead, args)
    }
}
