// The bookings that wait.
ghost use Rattle.std.specs.Prelude.{◌≡◌, ◌≤◌, [], take, position};
ghost use Rattle.std.proofs.Props.{props};
ghost use Rattle.queue.specs.Heaps.{Heaped};
ghost use Rattle.queue.specs.Listing.{Once};
ghost use Rattle.queue.specs.Refusals.{most_bookings};
ghost use Rattle.queue.specs.Sooner.{sooner, is_same_place};

use crate::booking::{Booking, BookingOrder};
use crate::heap::{put, take};
use crate::refusal::BookingRefusal;
use program::value::InputContent;

/// The most bookings that wait.
pub const MOST_BOOKINGS: usize = 64;

/// What stands where no booking waits.
// It is no `Default`: day 0 and input 0 are a day and an input like any other.
const BLANK: Booking = Booking {
    day: 0,
    input: 0,
    content: InputContent::Empty,
};

/// The bookings that wait: a queue in the first `count` places, at most one for a day and input.
// Clauses see them by `waiting`; an `impl Model` by that list would no longer say that it is in order.
#[derive(Drop)]
pub struct Bookings {
    // The queue's functions take places as a slice with the count beside it, and nothing is allocated.
    places: [Booking; MOST_BOOKINGS],
    count: usize,
    ghost sized: { count ≤ most_bookings },
    ghost heaped: { Heaped sooner (take count places) } by { Prim.hlevel props },
    ghost once: { Once sooner (take count places) },
}

impl Bookings {
    ghost use Rattle.queue.specs.Waiting.{waiting, Booked, first_due, after_due};

    /// No bookings.
    pub fn new() -> Bookings
        ensures { waiting result ≡ [] }
    {
        Bookings {
            places: [BLANK; MOST_BOOKINGS],
            count: 0,
        }
    }

    /// Where the booking for the same day and input waits.
    fn place_of(&self, b: &Booking) -> Option<usize>
        ensures { result
            ≡ position (λ p. is_same_place p b.now) (take self.now.count self.now.places) }
    {
        self.places[..self.count]
            .iter()
            .position(|p| p.key() == b.key())
    }

    /// Keeps a booking, in the place of an earlier one for the same day and input.
    pub fn book(&mut self, b: Booking) -> Result<(), BookingRefusal>
        ensures { Booked (waiting self.old) b result (waiting self.new) }
    {
        // The queue changes a copy: in the midst of a call the places are no heap.
        let mut places = self.places;
        let mut count = self.count;
        match self.place_of(&b) {
            Some(k) => places[k] = b,
            None => count = put(&BookingOrder, &mut places, count, b)?,
        }
        self.places = places;
        self.count = count;
        Ok(())
    }

    /// Takes the first booking, if it is for a day up to this one.
    pub fn take_due(&mut self, day: u16) -> Option<Booking>
        ensures answer { result ≡ first_due (waiting self.old) day }
        ensures left { waiting self.new ≡ after_due (waiting self.old) day }
    {
        let mut places = self.places;
        let first = take(&BookingOrder, &mut places, self.count).filter(|b| b.day <= day)?;
        self.places = places;
        self.count -= 1;
        Some(first)
    }
}
