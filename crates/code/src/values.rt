ghost use Rattle.std.specs.Prelude.{◌≡◌, ◌<◌, ◌≤◌, length};

use program::value::Value;

pub mod methods;

/// At most N values, in order: the first `count` of the items.
// A record takes at most 128 bytes, and nothing is allocated once a program is checked: so fixed memory and a narrow count.
#[derive(Clone, Copy)]
pub struct Values<const N: usize> {
    items: [Value; N],
    count: u8,
    ghost long: { length items ≡ N },
    ghost few: { count ≤ N },
    ghost narrow: { N < 256 },
}
