ghost use Rattle.std.specs.Prelude.{◌+◌, ◌^◌, ◌<◌, length};

pub mod methods;

// What is left of a text, and how many of its lines were handed out.
#[derive(Clone, Copy)]
pub struct Lines<'a> {
    rest: &'a [u8],
    passed: usize,
    ghost room: { passed + length rest.now < 2 ^ 64 },
}
