// A function of a checked program while it runs: how it is entered, what it does next, and how it goes on.
#![tactic(auto)]

pub mod args;
pub mod next;
pub mod reader;
pub mod running;
pub mod values;
