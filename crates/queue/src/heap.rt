// A queue as a heap in the first places of a slice: no element stands before its parent.
// The slice and the count stay the caller's: nothing is allocated, and one queue serves every kind of element.
ghost use Rattle.std.specs.Prelude.{◌≡◌, ◌+◌, ◌-◌, ◌*◌, ◌<◌, ◌≤◌, min, length, All};
ghost use Rattle.std.specs.List.Sorted.{IsPermutation};
ghost use Rattle.queue.specs.Heaps.{HeapedTo, Heaped, HeapedBut, Foremost, Puts, Takes};

use crate::order::Order;
use crate::refusal::QueueRefusal;

/// Moves the last element up, until it does not stand before its parent.
fn rise<Q: Order>(order: &Q, heap: &mut [Q::Element])
    requires { 0 < length heap.old }
    ensures shuffled { IsPermutation heap.old heap.new }
    ensures heaped { All (Q.belongs order.now) heap.old
        → HeapedTo (Q.precedes order.now) heap.old (length heap.old - 1)
        → Heaped (Q.precedes order.now) heap.new }
{
    let mut place = heap.len() - 1;
    // Along one path of the heap, from a place to its parent: there is no run of places to go over.
    while 0 < place {
        let parent = (place - 1) / 2;
        if !order.before(&heap[place], &heap[parent]) {
            return;
        }
        heap.swap(parent, place);
        place = parent;
    }
}

/// Of the children of a place, one that no other stands before.
fn foremost_child<Q: Order>(order: &Q, heap: &[Q::Element], place: usize) -> usize
    requires { place * 2 + 1 < length heap.now }
    ensures bound { (result < length heap.now) × (place * 2 + 1 ≤ result) × (result ≤ place * 2 + 2) }
    ensures foremost { All (Q.belongs order.now) heap.now
        → Foremost (Q.precedes order.now) heap.now place result }
{
    let left = 2 * place + 1;
    let right = left + 1;
    if right < heap.len() && order.before(&heap[right], &heap[left]) {
        right
    } else {
        left
    }
}

/// Moves the first element down, until no child stands before it.
fn sink<Q: Order>(order: &Q, heap: &mut [Q::Element])
    ensures shuffled { IsPermutation heap.old heap.new }
    ensures heaped { All (Q.belongs order.now) heap.old
        → HeapedBut (Q.precedes order.now) heap.old
        → Heaped (Q.precedes order.now) heap.new }
{
    let n = heap.len();
    let mut place = 0;
    // Along one path of the heap, from a place to a child.
    while place < n / 2 {
        let child = foremost_child(order, heap, place);
        if !order.before(&heap[child], &heap[place]) {
            return;
        }
        heap.swap(place, child);
        place = child;
    }
}

/// Adds an element to the first `count`, or refuses where all places are taken.
pub fn put<Q: Order>(
    order: &Q,
    heap: &mut [Q::Element],
    count: usize,
    x: Q::Element,
) -> Result<usize, QueueRefusal>
    ensures { Puts (Q.belongs order.now) (Q.precedes order.now) count x heap.old result heap.new }
{
    if heap.len() <= count {
        return Err(QueueRefusal::Full);
    }
    heap[count] = x;
    rise(order, &mut heap[..count + 1]);
    Ok(count + 1)
}

/// Takes out one of the first `count` elements, such that no other stands before it where all belong. It leaves one less.
/// A count beyond the slice is the slice's length.
pub fn take<Q: Order>(order: &Q, heap: &mut [Q::Element], count: usize) -> Option<Q::Element>
    ensures { let n = min count (length heap.old) in
        Takes (Q.belongs order.now) (Q.precedes order.now) n heap.old result heap.new }
{
    let last = count.min(heap.len()).checked_sub(1)?;
    let first = heap[0];
    heap[0] = heap[last];
    sink(order, &mut heap[..last]);
    Some(first)
}
