// Order lists: what an order list is, why it refuses, and that lists given the same calls cannot be told apart.
#![tactic(auto)]

pub mod alike;
pub mod list;
pub mod refusal;
