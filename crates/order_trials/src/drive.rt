// The same calls on two lists that give the same numbers, with every answer compared.
use crate::both::Pair;
use order_list::alike::{Twin, agree};
use order_list::list::OrderList;

/// A number below the capacity for call i, or the capacity itself.
fn pick(i: usize, capacity: usize) -> usize {
    let mixed = i % 65536 * 40503 % 65536;
    mixed % (capacity.min(65535) + 1)
}

impl<A: OrderList, B: OrderList> Pair<'_, '_, A, B> {
    /// Does call i on both lists, mostly insertions behind the base, some elsewhere, and each fifth removes; whether they answer alike.
    fn step(&mut self, i: usize) -> bool {
        let m = pick(i, self.one.capacity());
        if i % 5 == 4 {
            return self.one.remove(m) == self.other.remove(m);
        }
        let m = if i % 3 == 0 { m } else { 0 };
        self.one.insert_after(m) == self.other.insert_after(m)
    }

    /// Whether `before` and `next` answer the same after call i.
    fn same_answers(&self, i: usize) -> bool {
        let x = pick(i / 2, self.one.capacity());
        let y = pick(i / 3, self.one.capacity());
        agree(
            self.one,
            self.other,
            Twin { left: x, right: x },
            Twin { left: y, right: y },
        ) && self.one.next(x) == self.other.next(x)
    }

    /// Does the calls on both lists, and says whether each answer was the same, and `before` and `next` after each call.
    pub(crate) fn drive(&mut self, calls: usize) -> bool {
        (0..calls).all(|i| self.step(i) && self.same_answers(i))
    }
}
