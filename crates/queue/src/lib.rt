// One queue for every kind of element that an order admits, and the two orders that use it.
#![tactic(auto)]

pub mod booking;
pub mod bookings;
pub mod heap;
pub mod order;
pub mod refusal;
pub mod stale;
