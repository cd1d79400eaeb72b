// How a sheet is made.
ghost use Rattle.std.specs.Prelude.{◌≡◌, ◌+◌, ◌*◌, nat_le};
ghost use Rattle.sheet.specs.Making.{Allowed, Makes};

use crate::pass::UnsettledPass;
use crate::refusal::{MakeRefusal, Unmade};
use crate::sheet::{Sheet, State};
use order_list::list::OrderList;
use program::program::Program;
use table::limit::Limit;
use table::table::Table;

/// Whether a list of this capacity has room for the base and the stamps of 2L records.
pub(crate) fn has_room(capacity: usize, limit: Limit) -> bool
    ensures { result ≡ nat_le (4 * limit.value + 1) capacity }
{
    4 * limit.value() as usize + 1 <= capacity
}

/// The limit, where it is one and a list of this capacity has room.
fn allowed(capacity: usize, limit: u16) -> Result<Limit, MakeRefusal>
    ensures { Allowed capacity limit result }
{
    let limit = Limit::new(limit).ok_or(MakeRefusal::Limit)?;
    if has_room(capacity, limit) {
        Ok(limit)
    } else {
        Err(MakeRefusal::Capacity)
    }
}

impl<O: OrderList + Drop> Sheet<O> {
    /// Makes a sheet over a list in the caller's place, from a checked program, a number and a limit. The list is cleared, and the inputs
    /// are 0 or empty. Where no sheet is made, all is handed back as it was.
    pub fn make(
        place: &mut Option<Sheet<O>>,
        mut list: O,
        program: Program,
        number: u16,
        limit: u16,
    ) -> Result<UnsettledPass, Unmade<O>>
        ensures { Makes O.OrderList place.old list program number limit result place.new }
    {
        let limit = match allowed(list.capacity(), limit) {
            Ok(limit) => limit,
            Err(refusal) => return Err(Unmade {
                refusal,
                list,
                program,
            }),
        };
        list.clear();
        let table = Table::new(&program, limit);
        *place = Some(Sheet {
            program,
            number,
            limit,
            state: State::Unsettled,
            table,
            list,
        });
        Ok(UnsettledPass::first(number))
    }
}
