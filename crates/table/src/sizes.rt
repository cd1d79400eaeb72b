// How much a table holds.
use crate::limit::methods::MOST_RECORDS;
use order_list::list::MOST_PLACES;
use shape::standing;

/// The record places: two for each record that the largest limit allows.
pub(crate) const PLACES: usize = 2 * MOST_RECORDS as usize;

/// The most inputs of a program.
pub(crate) const INPUTS: usize = standing::INPUTS;

/// The stamps are members of an order list.
pub(crate) const STAMPS: usize = MOST_PLACES;

/// The sources: the modifiables of the records, and behind them the inputs.
pub(crate) const SOURCES: usize = PLACES + INPUTS;
