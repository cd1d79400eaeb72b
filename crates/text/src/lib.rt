// Program texts, layer 1: lines of a word and fields. The layers above see words and numbers, no bytes.
#![tactic(auto)]

pub mod check;
pub mod cut;
pub mod fields;
pub mod line;
pub mod lines;
