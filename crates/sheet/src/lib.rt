// Sheets: passes, and the calls on a sheet.
#![tactic(auto)]

mod fitting;
pub mod pass;
pub mod refusal;
pub mod settled;
pub mod sheet;
