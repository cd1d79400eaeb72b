// The queue tried: a thousand elements, bookings by their days, and reads over a lent list.
#![tactic(auto)]

#[cfg(test)]
mod many;
pub mod reads;
#[cfg(test)]
mod tests;
