// Both makes of order list side by side.
#![tactic(auto)]

pub mod both;
#[cfg(test)]
mod drive;
#[cfg(test)]
mod tests;
