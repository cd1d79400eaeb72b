// The queue and the bookings in use.
use crate::many::{MANY, drains_in_order, fill, of_day};
use program::value::InputContent;
use queue::booking::{Booking, BookingOrder};
use queue::bookings::{Bookings, MOST_BOOKINGS};
use queue::heap::{put, take};
use queue::refusal::{BookingRefusal, QueueRefusal};
use std::ops::Range;

#[test]
fn thousand_drained_in_order(rt: HostRuntime) {
    let mut heap = [of_day(0); MANY];
    assert!(rt; fill(&mut heap) == Ok(MANY));
    assert!(rt; drains_in_order(&mut heap, MANY));
}

#[test]
fn full_queue_refuses(rt: HostRuntime) {
    let mut heap = [of_day(7); 3];
    let answer = put(&BookingOrder, &mut heap, 3, of_day(1));
    assert!(rt; answer.map_err(QueueRefusal::number) == Err(35));
}

#[test]
fn count_beyond_the_slice(rt: HostRuntime) {
    let mut heap = [of_day(7); 3];
    assert!(rt; take(&BookingOrder, &mut heap, 9).is_some());
    assert!(rt; take(&BookingOrder, &mut heap, 0).is_none());
}

/// A booking of day 3 for input 1.
fn at_three(n: i32) -> Booking {
    Booking {
        day: 3,
        input: 1,
        content: InputContent::Number(n),
    }
}

#[test]
fn booking_replaced_and_drained(rt: HostRuntime) {
    let first = Booking {
        input: 9,
        ..of_day(2)
    };
    let second = Booking {
        content: InputContent::Cell { head: 1, tail: 2 },
        ..of_day(3)
    };
    let third = at_three(7);
    let mut bookings = Bookings::new();
    assert!(rt;
        [at_three(5), second, third, first]
            .iter()
            .all(|b| bookings.book(*b).is_ok())
    );
    assert!(rt; bookings.take_due(1).is_none());
    assert!(rt; bookings.take_due(2) == Some(first));
    assert!(rt; bookings.take_due(2).is_none());
    assert!(rt; bookings.take_due(3) == Some(second));
    assert!(rt; bookings.take_due(3) == Some(third));
    assert!(rt; bookings.take_due(65535).is_none());
}

/// Books a day each, from the last down to 0; whether all are kept.
fn book_days(bookings: &mut Bookings) -> bool {
    (0..MOST_BOOKINGS as u16)
        .rev()
        .all(|day| bookings.book(of_day(day)).is_ok())
}

/// Whether these days are due up to a day, in order.
fn days_due(bookings: &mut Bookings, mut days: Range<u16>, day: u16) -> bool {
    days.all(|d| bookings.take_due(day) == Some(of_day(d)))
}

#[test]
fn sixty_four_wait_and_no_more(rt: HostRuntime) {
    let mut bookings = Bookings::new();
    assert!(rt; book_days(&mut bookings));
    let answer = bookings.book(of_day(64));
    assert!(rt; answer.map_err(BookingRefusal::number) == Err(17));
    assert!(rt; bookings.book(of_day(40)).is_ok());
    assert!(rt; days_due(&mut bookings, 0..32, 31));
    assert!(rt; bookings.take_due(31).is_none());
    assert!(rt; bookings.book(of_day(64)).is_ok());
    assert!(rt; days_due(&mut bookings, 32..65, 99));
    assert!(rt; bookings.take_due(99).is_none());
}
