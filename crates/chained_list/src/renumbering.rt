// The renumbering make: after each insertion the members have the ranks 0, 1, 2 .. along the list.
ghost use Rattle.std.specs.Prelude.{◌≤◌, length};
ghost use Rattle.order_list.specs.Refusals.{most_places};
ghost use Rattle.chained_list.specs.Chain.{order, Strung, Retagged, Ranked};
ghost use Rattle.chained_list.specs.Tags.{ranks_after_insert};

use crate::chained::Chained;
use crate::labelling::Labelling;
use crate::links::splice;
use crate::member::Member;
use crate::places::Places;
use order_list::refusal::ListRefusal;

/// Tags that are ranks.
pub struct Renumbering;

/// The order list that renumbers its members.
pub type RenumberingList<'a> = Chained<'a, Renumbering>;

impl Labelling for Renumbering {
    ghost after = { ranks_after_insert };

    fn insert_in(places: &mut Places<'_>, m: usize) -> Result<usize, ListRefusal> {
        let n = places.vacancy(m)?;
        let members = &mut *places.members;
        let free = splice(members, m, n, 0);
        renumber(members);
        places.free = free;
        Ok(n)
    }
}

/// Gives the members the ranks 0, 1, 2 ..
// It takes the lent slice itself, as the links do.
fn renumber(places: &mut [Member])
    requires strung { Strung places.old (order places.old) }
    requires few { length places.old ≤ most_places }
    ensures same { Retagged places.old places.new }
    ensures ranks { Ranked places.new (order places.old) (length (order places.old)) }
{
    // The members follow one another by their links, and not in the slice.
    let mut at = 0usize;
    for rank in 0..places.len() {
        places[at].tag = rank as u32;
        at = places[at].next as usize;
        if at == 0 {
            return;
        }
    }
}
