// Many bookings in one queue.
use program::value::InputContent;
use queue::booking::{Booking, BookingOrder};
use queue::heap::{put, take};
use queue::refusal::QueueRefusal;

/// How many are tried.
pub const MANY: usize = 1000;

/// A booking of this day, without content.
pub(crate) fn of_day(day: u16) -> Booking {
    Booking {
        day,
        input: 0,
        content: InputContent::Empty,
    }
}

/// Another day below a thousand, such that each comes once.
fn mixed(day: u16) -> u16 {
    (u32::from(day) * 389 % MANY as u32) as u16
}

/// Puts a booking of each day below a thousand into the queue, and answers how many it then has.
pub(crate) fn fill(heap: &mut [Booking]) -> Result<usize, QueueRefusal> {
    (0..MANY as u16).try_fold(
        0,
        |count, day| put(&BookingOrder, heap, count, of_day(mixed(day))),
    )
}

/// Whether taking all answers the days in order.
pub(crate) fn drains_in_order(heap: &mut [Booking], count: usize) -> bool {
    (0..count).all(|day| {
        take(&BookingOrder, heap, count - day).is_some_and(|b| usize::from(b.day) == day)
    })
}
