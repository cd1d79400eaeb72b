// The table of a sheet: its records and inputs, and the run that fills it.
#![tactic(auto)]

pub mod limit;
mod readers;
pub mod record;
mod sizes;
pub mod table;
