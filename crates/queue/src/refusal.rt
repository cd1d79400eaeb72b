// Why the queue, and the bookings that wait in one, refuse a call.
ghost use Rattle.std.specs.Prelude.{◌≡◌};
ghost use Rattle.queue.specs.declared.refusal.BookingRefusal.TheVariants.{Full};
ghost use Rattle.queue.specs.Refusals.{number_of, booking_number_of};

/// Why an element is not put into a queue.
#[derive(Clone, Copy, PartialEq, Eq, Debug)]
pub enum QueueRefusal {
    /// All places are taken.
    Full = 35,
}

impl QueueRefusal {
    /// The number by which the refusal is told.
    // A cast to the discriminant names its enum, so each enum of refusals has this method; `u8::from` would not say what it gives.
    pub fn number(self) -> u8
        ensures { result ≡ number_of self }
    {
        self as u8
    }
}

/// Why a booking is not kept.
// An enum beside the queue's, since each refusal is told by its own number.
#[derive(Clone, Copy, PartialEq, Eq, Debug)]
pub enum BookingRefusal {
    /// As many bookings wait as can, and none has this day and input.
    Full = 17,
}

impl BookingRefusal {
    /// The number by which the refusal is told.
    // A cast to the discriminant names its enum, so each enum of refusals has this method; `u8::from` would not say what it gives.
    pub fn number(self) -> u8
        ensures { result ≡ booking_number_of self }
    {
        self as u8
    }
}

/// The queue of the bookings refuses one only where it is full.
impl From<QueueRefusal> for BookingRefusal {
    ghost from_gives = { λ _ r. r ≡ Full };

    fn from(refusal: QueueRefusal) -> BookingRefusal {
        match refusal {
            QueueRefusal::Full => BookingRefusal::Full,
        }
    }
}
