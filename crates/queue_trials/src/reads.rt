// Stale reads over a list that is only lent.
ghost use Rattle.std.specs.Prelude.{length, min};
ghost use Rattle.queue.specs.Heaps.{Puts, Takes};
ghost use Rattle.queue.specs.Stale.{Stands, stale_before};

use order_list::list::OrderList;
use queue::heap::{put, take};
use queue::refusal::QueueRefusal;
use queue::stale::{StaleOrder, StaleRead};

/// Queues a read: where all start stamps are members, the queue stays a heap.
pub fn queue_read<O: OrderList>(
    list: &O,
    places: &mut [StaleRead],
    count: usize,
    x: StaleRead,
) -> Result<usize, QueueRefusal>
    ensures { let xs = O.order list.now in
        Puts (Stands xs) (stale_before xs) count x places.old result places.new }
{
    put(&StaleOrder { list }, places, count, x)
}

/// Takes a read: where all start stamps are members, none stands earlier than its.
pub fn earliest_read<O: OrderList>(
    list: &O,
    places: &mut [StaleRead],
    count: usize,
) -> Option<StaleRead>
    ensures { let xs = O.order list.now in
        let n = min count (length places.old) in
        Takes (Stands xs) (stale_before xs) n places.old result places.new }
{
    take(&StaleOrder { list }, places, count)
}
