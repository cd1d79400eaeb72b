// The journal: the calls that a terminal, a test or a person writes, a line each, and what is answered to them.
#![tactic(auto)]

pub mod answer;
pub mod call;
pub mod cut;
pub mod serve;
pub mod verdict;
