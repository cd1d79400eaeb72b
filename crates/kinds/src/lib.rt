// Program texts, layer 3: what a line names is there, and kinds and numbers of arguments agree.
#![tactic(auto)]

pub mod check;
pub mod fault;
pub mod registers;
pub mod rules;
pub mod scope;
