ghost use Rattle.std.specs.Prelude.{◌≡◌, ◌+◌, ◌<◌, ◌≤◌, [], ◌∷◌, ◌++◌, length};
ghost use Rattle.code.specs.Values.{listed};

use crate::values::Values;
use program::value::Value;

impl<const N: usize> Values<N> {
    /// No values.
    pub(crate) fn none() -> Values<N>
        requires { N < 256 }
        ensures { listed result ≡ [] }
    {
        Values {
            items: [Value::Number(0); N],
            count: 0,
        }
    }

    /// One more value.
    pub(crate) fn push(&mut self, value: Value)
        requires { length (listed self.old) < N }
        ensures { listed self.new ≡ listed self.old ++ value ∷ [] }
    {
        self.items[self.count as usize] = value;
        self.count += 1;
    }

    /// One more value for each of these.
    pub(crate) fn push_all(&mut self, values: &[Value])
        requires { length (listed self.old) + length values.now ≤ N }
        ensures { listed self.new ≡ listed self.old ++ values.now }
    {
        for value in values {
            self.push(*value);
        }
    }

    /// The values as a slice.
    pub fn as_slice(&self) -> &[Value]
        ensures items { result.now ≡ listed self.now }
        ensures few { length result.now ≤ N }
    {
        &self.items[..self.count as usize]
    }
}
