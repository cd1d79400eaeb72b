ghost use Rattle.std.specs.Prelude.{◌≡◌};
ghost use Rattle.program.specs.Arith.{applied};

// The operations on numbers from -2147483648 to 2147483647.
#[derive(Clone, Copy, PartialEq, Eq, Debug)]
pub enum Op {
    Add,
    Sub,
    Mul,
    Div,
    Min,
    Max,
}

impl Op {
    // The exact result, or the end of the range that it passes.
    pub fn apply(self, a: i32, b: i32) -> i32
        ensures { result ≡ applied self a b }
    {
        match self {
            Op::Add => a.saturating_add(b),
            Op::Sub => a.saturating_sub(b),
            Op::Mul => a.saturating_mul(b),
            // The fraction is dropped, towards zero; a divisor 0 gives 0.
            Op::Div => if b == 0 { 0 } else { a.saturating_div(b) },
            Op::Min => a.min(b),
            Op::Max => a.max(b),
        }
    }
}
