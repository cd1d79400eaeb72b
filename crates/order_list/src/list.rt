// What an order list is.
ghost use Rattle.std.specs.Prelude.{◌≡◌, ℕ, List, [], ◌∷◌, Result};
ghost use Rattle.order_list.specs.Order.{Lawful, Inserted, Removed, NextIs, earlier};
ghost use Rattle.order_list.specs.declared.refusal.ListRefusal.{ListRefusal};

use crate::refusal::ListRefusal;

/// The most member places of a list.
pub const MOST_PLACES: usize = 4096;

/// A list of different member numbers below a fixed capacity, the base 0 first.
pub trait OrderList {
    /// The members in their order, the base first.
    ghost order: { Self → List ℕ };

    /// The capacity.
    ghost size: { Self → ℕ };

    /// What a make says besides, of the places that it stores its members in: clearing s may leave t.
    ghost clears: { Self → Self → Type 0 };

    /// Inserting behind m in s answers r and leaves t.
    ghost inserts: { Self → ℕ → Result ℕ ListRefusal → Self → Type 0 };

    /// Removing m from s answers r and leaves t.
    ghost removes: { Self → ℕ → Result (Unit {0}) ListRefusal → Self → Type 0 };

    /// The capacity.
    fn capacity(&self) -> usize
        ensures { result ≡ size self.now };

    /// Leaves only the base.
    fn clear(&mut self)
        ensures only { order self.new ≡ 0 ∷ [] }
        ensures placed { clears self.old self.new }
        ensures same { size self.new ≡ size self.old };

    /// Puts a number that was no member directly behind m, and answers it.
    fn insert_after(&mut self, m: usize) -> Result<usize, ListRefusal>
        ensures done { Inserted (size self.old) (order self.old) m result (order self.new) }
        ensures placed { inserts self.old m result self.new }
        ensures same { size self.new ≡ size self.old };

    /// Takes m out; its number may be given again.
    fn remove(&mut self, m: usize) -> Result<(), ListRefusal>
        ensures done { Removed (order self.old) m result (order self.new) }
        ensures placed { removes self.old m result self.new }
        ensures same { size self.new ≡ size self.old };

    /// Whether both are members and a stands earlier.
    fn before(&self, a: usize, b: usize) -> bool
        ensures { result ≡ earlier (order self.now) a b };

    /// The member directly behind m; none where m is last or no member.
    fn next(&self, m: usize) -> Option<usize>
        ensures { NextIs (order self.now) m result };

    /// Every list is in order.
    ghost lawful: { (s : Self) → Lawful (size s) (order s) };
}
