// What the two makes differ in: the tags that an insertion gives.
ghost use Rattle.std.specs.Prelude.{◌≡◌, ℕ, List, length};
ghost use Rattle.order_list.specs.Order.{Inserted};
ghost use Rattle.chained_list.specs.Tags.{Tagged};
ghost use Rattle.chained_list.specs.Chain.{order};
ghost use Rattle.chained_list.specs.Links.{link_of};
ghost use Rattle.chained_list.specs.Contents.{InsertedPlaces};

use crate::places::Places;
use order_list::refusal::ListRefusal;

/// How an insertion tags the members, so that tags rise along the list.
pub trait Labelling {
    /// The members with their tags after n was put behind m.
    ghost after: { List Tagged → ℕ → ℕ → List Tagged };

    /// Puts the first free place behind m, in the same lent slice.
    fn insert_in(places: &mut Places<'_>, m: usize) -> Result<usize, ListRefusal>
        ensures done { Inserted (length places.old.members.now) (order places.old.members.now) m result (order places.new.members.now) }
        ensures placed { InsertedPlaces after places.old.members.now (link_of places.old.free) m result places.new.members.now (link_of places.new.free) }
        ensures same { length places.new.members.now ≡ length places.old.members.now }
        ensures lent { places.new.members.ghost_name ≡ places.old.members.ghost_name };
}
