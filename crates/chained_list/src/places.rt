// The lent member places of one list: one chain of links, and one of free places.
ghost use Rattle.std.specs.Prelude.{◌≡◌, ◌≢◌, [], ◌∷◌, length, Some};
ghost use Rattle.order_list.specs.Order.{Removed, NextIs, earlier};
ghost use Rattle.chained_list.specs.Links.{link_of};
ghost use Rattle.chained_list.specs.Contents.{Vacant, Cleared, RemovedPlaces};
ghost use Rattle.chained_list.specs.Chain.{Sound, Sound-prop, StandsAs, order};

use crate::links::{unlink, wipe};
use crate::member::Member;
use order_list::refusal::ListRefusal;

/// Lent member places that hold a list in order.
#[derive(Drop)]
pub struct Places<'a> {
    /// The places.
    pub members: &'a mut [Member],
    /// The first free place.
    pub free: Option<usize>,
    /// The base is not free.
    // A NonZeroUsize would say it too, but each use of the place is as an index, which that is not.
    pub ghost inner: { free ≢ Some 0 },
    /// The list is in order inside.
    pub ghost sound: { Sound members.now (link_of free) } by { Sound-prop members.now (link_of free) },
}

impl Places<'_> {
    /// Leaves only the base.
    pub(crate) fn clear(&mut self)
        ensures only { order self.new.members.now ≡ 0 ∷ [] }
        ensures placed { Cleared self.new.members.now (link_of self.new.free) }
        ensures same { length self.new.members.now ≡ length self.old.members.now }
    {
        self.free = wipe(self.members);
    }

    /// What place m holds, where a member stands there.
    pub(crate) fn standing(&self, m: usize) -> Option<Member>
        ensures { StandsAs self.now.members.now m result }
    {
        match self.members.get(m) {
            Some(member) if member.used => Some(*member),
            _ => None,
        }
    }

    /// The free place that an insertion behind m takes, or why it is refused.
    pub(crate) fn vacancy(&self, m: usize) -> Result<usize, ListRefusal>
        ensures { Vacant self.now.members.now (link_of self.now.free) m result }
    {
        self.standing(m).ok_or(ListRefusal::NoMember)?;
        self.free.ok_or(ListRefusal::Full)
    }

    /// Whether both stand and a has the lower tag.
    #[tactic(auto, using(crate::proofs::Looks::no_left, crate::proofs::Looks::no_right, crate::proofs::Looks::by_tags))]
    pub(crate) fn before(&self, a: usize, b: usize) -> bool
        ensures { result ≡ earlier (order self.now.members.now) a b }
    {
        match (self.standing(a), self.standing(b)) {
            (Some(left), Some(right)) => left.tag < right.tag,
            _ => false,
        }
    }

    /// What m links to.
    #[tactic(auto, using(crate::proofs::Looks::next_none))]
    pub(crate) fn next(&self, m: usize) -> Option<usize>
        ensures { NextIs (order self.now.members.now) m result }
    {
        self.standing(m)?.behind()
    }

    /// Takes m out.
    pub(crate) fn remove(&mut self, m: usize) -> Result<(), ListRefusal>
        ensures done { Removed (order self.old.members.now) m result (order self.new.members.now) }
        ensures placed { RemovedPlaces self.old.members.now (link_of self.old.free) m result self.new.members.now (link_of self.new.free) }
        ensures same { length self.new.members.now ≡ length self.old.members.now }
    {
        self.standing(m).ok_or(ListRefusal::NoMember)?;
        if m == 0 {
            return Err(ListRefusal::Base);
        }
        unlink(self.members, m, self.free);
        self.free = Some(m);
        Ok(())
    }
}
