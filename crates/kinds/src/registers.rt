ghost use Rattle.std.specs.Prelude.{◌≡◌, IfOk};
ghost use Rattle.text.specs.Values.{values};
ghost use Rattle.kinds.specs.Kinds.{kinds_in, or_number};

use std::alloc::{AllocError, Global};
use text::fields::{Fields, Kind};

// A field that names no kind breaks a rule of layer 2; what it stands for then does not matter.
pub fn kind_or_number(kind: Option<Kind>) -> Kind
    ensures { result ≡ or_number kind }
{
    kind.unwrap_or(Kind::Number)
}

// The kinds that fields name.
pub fn kinds_of(heap: Global, fields: Fields<'_>) -> Result<Vec<Kind>, AllocError>
    ensures { IfOk result (λ v. v.items ≡ kinds_in (values fields.entry)) }
{
    fields
        .numbers()
        .map(|number| kind_or_number(Kind::try_from(number).ok()))
        .collect(heap)
}
