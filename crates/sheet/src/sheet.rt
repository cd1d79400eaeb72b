use order_list::list::OrderList;
use program::program::Program;
use table::limit::Limit;
use table::table::Table;

pub mod calls;
pub mod make;

/// A sheet is at rest, settled with a trace that stands or unsettled without one, or it is open.
#[derive(Clone, Copy, PartialEq, Eq, Debug)]
pub enum State {
    Unsettled,
    Settled,
    Open,
}

/// A wholesaler's sheet: a checked program over his counts and prices, its number, its limit, its records and inputs, and the list
/// that holds their order in time.
#[derive(Drop)]
pub struct Sheet<O: OrderList> {
    program: Program,
    number: u16,
    limit: Limit,
    state: State,
    table: Table,
    list: O,
}
