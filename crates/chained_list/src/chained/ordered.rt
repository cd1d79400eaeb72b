// The list in lent places as an order list.
ghost use Rattle.std.specs.Prelude.{◌≡◌, length, MatchResult};
ghost use Rattle.chained_list.specs.Chain.{order as order_in, sound_lawful};
ghost use Rattle.chained_list.specs.Links.{link_of};
ghost use Rattle.chained_list.specs.Contents.{Built, Kept, Cleared, InsertedPlaces, RemovedPlaces};

use crate::chained::{Chained, Unbuilt};
use crate::labelling::Labelling;
use crate::links::{test_places, wipe};
use crate::member::Member;
use crate::places::Places;
use order_list::list::OrderList;
use order_list::refusal::ListRefusal;
use std::marker::PhantomData;

impl<'a, L: Labelling> Chained<'a, L> {
    /// A list of the base alone in the places; or the same places, as they were, where they are too few or too many.
    pub fn new(places: &'a mut [Member]) -> Result<Chained<'a, L>, Unbuilt<'a>>
        ensures { MatchResult result (λ l. Built places.old l.places.members.now (link_of l.places.free)) (λ u. Kept places.old u.places.now u.refusal × (u.places.ghost_name ≡ places.entry.ghost_name)) }
    {
        if let Err(refusal) = test_places(places.len()) {
            return Err(Unbuilt { places, refusal });
        }
        let free = wipe(places);
        Ok(Chained {
            places: Places {
                members: places,
                free,
            },
            labels: PhantomData,
        })
    }
}

impl<'a, L: Labelling> OrderList for Chained<'a, L> {
    ghost order = { λ s. order_in s.places.members.now };

    ghost size = { λ s. length s.places.members.now };

    ghost lawful = { λ s. sound_lawful s.places.sound };

    ghost clears = { λ s t. Cleared t.places.members.now (link_of t.places.free) };

    ghost inserts = { λ s m r t. InsertedPlaces L.Labelling.after s.places.members.now (link_of s.places.free) m r t.places.members.now (link_of t.places.free) };

    ghost removes = { λ s m r t. RemovedPlaces s.places.members.now (link_of s.places.free) m r t.places.members.now (link_of t.places.free) };

    fn capacity(&self) -> usize {
        self.places.members.len()
    }

    fn clear(&mut self) {
        self.places.clear();
    }

    fn insert_after(&mut self, m: usize) -> Result<usize, ListRefusal> {
        L::insert_in(&mut self.places, m)
    }

    fn remove(&mut self, m: usize) -> Result<(), ListRefusal> {
        self.places.remove(m)
    }

    fn before(&self, a: usize, b: usize) -> bool {
        self.places.before(a, b)
    }

    fn next(&self, m: usize) -> Option<usize> {
        self.places.next(m)
    }
}
