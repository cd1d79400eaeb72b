// Stale reads, and their order.
ghost use Rattle.queue.specs.Stale.{Stands, stale_before, stale_lawful};

use crate::order::Order;
use order_list::list::OrderList;

/// A read that is queued: the number of its record, and its start stamp.
#[derive(Clone, Copy)]
pub struct StaleRead {
    pub record: usize,
    pub start: usize,
}

/// By their start stamps in the list. A read belongs while its start stamp is a member.
#[derive(Drop)]
pub struct StaleOrder<'a, O: OrderList> {
    pub list: &'a O,
}

impl<'a, O: OrderList> Order for StaleOrder<'a, O> {
    type Element = StaleRead;

    ghost belongs = { λ s. Stands (O.order s.list.now) };

    ghost precedes = { λ s. stale_before (O.order s.list.now) };

    fn before(&self, a: &StaleRead, b: &StaleRead) -> bool {
        self.list.before(a.start, b.start)
    }

    ghost lawful = { λ s. stale_lawful (O.size s.list.now) (O.order s.list.now) (O.lawful s.list.now) };
}
