ghost use Rattle.std.specs.Prelude.{◌≡◌, ◌/◌, ◌<◌, ◌≤◌, [], length, drop, pos, IfSome, slice_index_or};
ghost use Rattle.text.specs.Field.{digits_on, natural_of, unspaced, field_value};
ghost use Rattle.text.specs.Numbers.{fields_stand, whole_of, kind_of};
ghost use Rattle.text.specs.Values.{values, numbers_left};

// The columns of a field.
pub(crate) const WIDTH: usize = 6;

// What a register holds: a number, a modifiable with a number, a modifiable with a list.
#[derive(Clone, Copy, PartialEq, Eq, Debug)]
pub enum Kind {
    Number,
    ModNumber,
    ModList,
}

// A number that names no kind.
#[derive(Clone, Copy, PartialEq, Eq, Debug)]
pub struct UnknownKind(pub i32);

impl TryFrom<i32> for Kind {
    ghost use Rattle.text.specs.Numbers.{Names};

    type Error = UnknownKind;

    ghost try_from_gives = { Names };

    fn try_from(number: i32) -> Result<Kind, UnknownKind> {
        match number {
            1 => Ok(Kind::Number),
            2 => Ok(Kind::ModNumber),
            3 => Ok(Kind::ModList),
            _ => Err(UnknownKind(number)),
        }
    }
}

// The fields of a line, six columns each: a part of the text. Clauses read them by `values`, since a type that is Copy
// and borrows can have no model.
#[derive(Clone, Copy)]
pub struct Fields<'a> {
    columns: &'a [u8],
}

impl<'a> Fields<'a> {
    pub(crate) fn over(columns: &'a [u8]) -> Fields<'a>
        ensures { result.columns.now ≡ columns.now }
    {
        Fields { columns }
    }

    // No fields.
    pub fn none() -> Fields<'a>
        ensures { values result ≡ [] }
    {
        Fields { columns: &[] }
    }

    // How many fields there are.
    pub fn count(self) -> usize
        ensures { result ≡ length (values self.entry) }
    {
        self.columns.len() / WIDTH
    }

    // The numbers in the fields, in order.
    pub fn numbers(self) -> Numbers<'a>
        ensures { numbers_left result ≡ values self.entry }
    {
        Numbers {
            columns: self.columns,
        }
    }

    // The number in field j, or 0 where there is no field j: a public promise, by value; the count tells
    // which fields there are.
    pub fn number(self, j: usize) -> i32
        ensures { result ≡ slice_index_or (values self.entry) j (pos 0) }
    {
        self.skip(j).numbers().next().unwrap_or(0)
    }

    // The number in field j, where it is not negative.
    pub fn index(self, j: usize) -> Option<usize>
        ensures { result ≡ whole_of (slice_index_or (values self.entry) j (pos 0)) }
    {
        usize::try_from(self.number(j)).ok()
    }

    // The kind that field j names.
    pub fn kind(self, j: usize) -> Option<Kind>
        ensures { result ≡ kind_of (slice_index_or (values self.entry) j (pos 0)) }
    {
        Kind::try_from(self.number(j)).ok()
    }

    // The fields from field k on.
    pub fn skip(self, k: usize) -> Fields<'a>
        ensures { values result ≡ drop k (values self.entry) }
    {
        match self.columns.get(WIDTH.saturating_mul(k)..) {
            Some(columns) => Fields { columns },
            None => Fields::none(),
        }
    }
}

// The numbers in the fields of a line, in order.
#[derive(Drop)]
pub struct Numbers<'a> {
    columns: &'a [u8],
}

impl<'a> Iterator for Numbers<'a> {
    ghost use Rattle.std.specs.Iterator.{YieldsFirst, item_count};
    ghost use Rattle.text.specs.Values.{numbers_left};

    type Item = i32;

    ghost next_gives = { YieldsFirst numbers_left };

    ghost remaining = { item_count numbers_left };

    // A field that holds no number counts as 0.
    fn next(&mut self) -> Option<i32> {
        let (first, rest) = self.columns.split_at_checked(WIDTH)?;
        self.columns = rest;
        Some(field(first).unwrap_or(0))
    }
}

// Whether each field holds a number.
pub(crate) fn all_stand(columns: &[u8]) -> bool
    ensures { result ≡ fields_stand (length columns.now / 6) columns.now }
{
    columns
        .chunks_exact(WIDTH)
        .all(|columns| field(columns).is_some())
}

// The number that a field of six columns holds, or none where it holds no such number.
fn field(columns: &[u8]) -> Option<i32>
    ensures { result ≡ field_value columns.now }
{
    if columns.len() != WIDTH {
        return None;
    }
    match unspaced_part(columns) {
        [b'-', digits @ ..] => natural(digits).filter(|n| *n != 0).map(|n| -(n as i32)),
        digits => natural(digits).map(|n| n as i32),
    }
}

// What follows the leading spaces.
fn unspaced_part(columns: &[u8]) -> &[u8]
    ensures value { result.now ≡ unspaced columns.now }
    ensures bound { length result.now ≤ length columns.now }
{
    let mut rest = columns;
    while let [b' ', tail @ ..] = rest {
        rest = tail;
    }
    rest
}

// The value of one to six digits with no leading zero.
fn natural(digits: &[u8]) -> Option<u32>
    requires { length digits.now ≤ 6 }
    ensures value { result ≡ natural_of digits.now }
    ensures bound { IfSome result (λ n. n < 1000000) }
{
    match digits {
        [] => None,
        [b'0', _, ..] => None,
        _ => digits_value(digits),
    }
}

fn digits_value(digits: &[u8]) -> Option<u32>
    requires { length digits.now ≤ 6 }
    ensures value { result ≡ digits_on 0 digits.now }
    ensures bound { IfSome result (λ n. n < 1000000) }
{
    let mut value = 0u32;
    for b in digits {
        value = value * 10 + char::from(*b).to_digit(10)?;
    }
    Some(value)
}
