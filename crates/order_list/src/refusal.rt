// Why an order list refuses a call.
ghost use Rattle.std.specs.Prelude.{◌≡◌};
ghost use Rattle.order_list.specs.Refusals.{number_of};

/// Why a call is refused. A refused call changes nothing.
#[derive(Clone, Copy, PartialEq, Eq, Debug)]
pub enum ListRefusal {
    /// The number is no member.
    NoMember = 31,
    /// As many members stand as there are places.
    Full = 32,
    /// The base is not removed.
    Base = 33,
    /// A list is built in 1 to 4,096 places.
    Places = 34,
}

impl ListRefusal {
    /// The number by which the refusal is told.
    // A cast to the discriminant names its enum, so each enum of refusals has this method; `u8::from` would not say what it gives.
    pub fn number(self) -> u8
        ensures { result ≡ number_of self }
    {
        self as u8
    }
}
