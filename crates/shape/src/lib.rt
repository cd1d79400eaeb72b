// Program texts, layer 2: where a line stands, how many fields it has, ranges and limits.
#![tactic(auto)]

pub mod check;
pub mod fault;
pub mod standing;
