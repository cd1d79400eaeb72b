// Bookings, and their order.
ghost use Rattle.std.specs.Prelude.{◌≡◌};
ghost use Rattle.queue.specs.Sooner.{sooner, sooner_lawful};

use crate::order::Order;
use program::value::InputContent;

/// On this day the input is set to the content.
#[derive(Clone, Copy, PartialEq, Eq, Debug)]
pub struct Booking {
    pub day: u16,
    pub input: u16,
    pub content: InputContent,
}

impl Booking {
    /// The day and the input that it is for: by them bookings are ordered.
    pub fn key(&self) -> (u16, u16)
        ensures { result ≡ (self.now.day, self.now.input) }
    {
        (self.day, self.input)
    }
}

/// By day, and then by input. Every booking belongs.
#[derive(Clone, Copy)]
pub struct BookingOrder;

impl Order for BookingOrder {
    type Element = Booking;

    ghost belongs = { λ _ _. Unit {0} };

    ghost precedes = { λ _. sooner };

    fn before(&self, a: &Booking, b: &Booking) -> bool {
        a.key() < b.key()
    }

    ghost lawful = { λ _. sooner_lawful };
}
