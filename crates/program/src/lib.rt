// Checked programs: what a text that keeps the rules says, and what a program computes with.
#![tactic(auto)]

pub mod arith;
pub mod check;
pub mod function;
pub mod program;
pub mod read;
pub mod value;
