// Tables in which nothing stands.
ghost use Rattle.std.specs.Prelude.{◌≡◌, ℕ, ◌+◌, ◌*◌, ◌<◌, ◌≤◌, slice_index, slice_index_or};
ghost use Rattle.program.specs.View.{viewed};
ghost use Rattle.table.specs.Records.{blank};
ghost use Rattle.table.specs.Anew.{Vacant, Zeros, Cleared, HasRoom};

use crate::limit::Limit;
use crate::readers::Readers;
use crate::record::Record;
use crate::sizes::{INPUTS, PLACES, STAMPS};
use crate::table::Table;
use order_list::list::OrderList;
use program::program::Program;
use program::value::InputContent;
use std::array;

/// How many places a sheet has: two for each record that its limit allows.
fn places_for(limit: Limit) -> u16
    ensures { result ≡ 2 * limit.value }
{
    2 * limit.value()
}

/// All places blank.
// A function of its own: a function clears its locals when it is entered, and these records are most of a table.
fn blanks() -> [Record; PLACES]
    ensures { (q : ℕ) → slice_index_or result q blank ≡ blank }
{
    [Record::default(); PLACES]
}

/// All places, 0, 1, 2 ..
fn all_places() -> [u16; PLACES]
    ensures { (i : ℕ) → i < 1024 → slice_index result i ≡ i }
{
    array::from_fn(|place| place as u16)
}

/// The inputs at first: 0 for those that have a number, and empty for the others.
fn zeros(program: &Program) -> [InputContent; INPUTS]
    ensures { Zeros (viewed program.now) result }
{
    let mut inputs = [InputContent::Empty; INPUTS];
    // Tried `fill` on the part: the proof does not close; and `from_fn`: with it the kit does not write out what the crate states.
    for k in 0..program.numbers {
        inputs[k] = InputContent::Number(0);
    }
    inputs
}

impl Table {
    /// A table in which nothing stands, with the inputs at first.
    pub fn new(program: &Program, limit: Limit) -> Table
        ensures vacant { Vacant limit.value result }
        ensures inputs { Zeros (viewed program.now) result.inputs }
        ensures noted { result.noted ≡ result.inputs }
    {
        let inputs = zeros(program);
        Table {
            records: blanks(),
            inputs,
            noted: inputs,
            owners: [0; STAMPS],
            spare: all_places(),
            spares: places_for(limit),
            room: 0,
            readers: Readers::new(),
        }
    }

    /// Takes all records out, and their stamps; as many may then be made as the limit says.
    pub(crate) fn clear<O: OrderList>(&mut self, list: &mut O, limit: Limit)
        requires { HasRoom O.OrderList limit.value list.old }
        ensures cleared { Cleared O.OrderList limit.value self.old self.new list.new }
        ensures same { O.OrderList.size list.new ≡ O.OrderList.size list.old }
    {
        list.clear();
        self.records = blanks();
        self.spare = all_places();
        self.spares = places_for(limit);
        self.readers = Readers::new();
        self.room = limit.value();
    }
}
