// What both makes do in the lent member places: one chain of links. These take the lent slice itself, since links are changed
// in the midst of a call, where the list is not in order.
ghost use Rattle.std.specs.Prelude.{◌≡◌, suc, ◌+◌, ◌<◌, ◌≤◌, true, false, [], ◌∷◌, length, if◌then◌else◌, Some, None, MatchResult, ◌≢◌, nat_eq};
ghost use Rattle.order_list.specs.Refusals.{most_places};
ghost use Rattle.order_list.specs.Order.{make_refusal};
ghost use Rattle.chained_list.specs.Links.{link_of};
ghost use Rattle.chained_list.specs.Contents.{Cleared};
ghost use Rattle.chained_list.specs.Chain.{Sound, order, next_of, previous_of, link_both, Room, Ready, Spliced, Unlinked};

use crate::member::Member;
use order_list::list::MOST_PLACES;
use order_list::refusal::ListRefusal;

/// Tests how many member places there are, before a list is built in them.
pub(crate) fn test_places(count: usize) -> Result<(), ListRefusal>
    ensures { MatchResult result (λ _. make_refusal count ≡ None) (λ e. make_refusal count ≡ Some e) }
{
    if (1..=MOST_PLACES).contains(&count) {
        Ok(())
    } else {
        Err(ListRefusal::Places)
    }
}

/// Links b directly behind a, both ways.
fn link(places: &mut [Member], a: usize, b: usize)
    requires { (a < length places.old) × ((b < length places.old) × (length places.old ≤ most_places)) }
    ensures { places.new ≡ link_both places.old a b }
{
    places[a].next = b as u16;
    places[b].previous = a as u16;
}

/// Puts the free place n with the tag directly behind m, and tells the place that it linked to.
#[tactic(auto, using(crate::proofs::Chains::m_below, crate::proofs::Chains::h_below, crate::proofs::Chains::x_below))]
pub(crate) fn splice(places: &mut [Member], m: usize, n: usize, tag: u32) -> Option<usize>
    requires { Room places.old n m }
    ensures free { link_of result ≡ next_of places.old n }
    ensures inner { result ≢ Some 0 }
    ensures spliced { Spliced places.old places.new m n tag }
{
    let free = places[n].behind();
    let next = places[m].next as usize;
    places[n] = Member {
        used: true,
        tag,
        ..Member::default()
    };
    link(places, n, next);
    link(places, m, n);
    free
}

/// Takes m out; it then links to h, the first free place.
#[tactic(auto, using(crate::proofs::Remove::p_below, crate::proofs::Remove::x_below, crate::proofs::Remove::h_below))]
pub(crate) fn unlink(places: &mut [Member], m: usize, h: Option<usize>)
    requires { Ready places.old (link_of h) m }
    ensures { Unlinked places.old places.new (previous_of places.old m) m (link_of h) }
{
    let Member { next, previous, .. } = places[m];
    link(places, previous as usize, next as usize);
    places[m] = Member {
        next: h.unwrap_or(0) as u16,
        ..Member::default()
    };
}

// The answer is a link as a member keeps it, a narrow field where 0 leads nowhere.
/// What place i of count links to where only the base stands: the next free place, or none.
fn free_behind(i: usize, count: usize) -> u16
    requires { (i < count) × (count ≤ most_places) }
    ensures { result ≡ (if nat_eq i 0 then 0 else (if nat_eq (suc i) count then 0 else suc i)) }
{
    if i == 0 || i + 1 == count {
        0
    } else {
        (i + 1) as u16
    }
}

/// Leaves only the base, chains the other places, and tells the first of them.
pub(crate) fn wipe(places: &mut [Member]) -> Option<usize>
    requires { make_refusal (length places.old) ≡ None }
    ensures only { order places.new ≡ 0 ∷ [] }
    ensures placed { Cleared places.new (link_of result) }
    ensures inner { result ≢ Some 0 }
    ensures kept { Sound places.new (link_of result) }
{
    let count = places.len();
    for (i, place) in places.iter_mut().enumerate() {
        *place = Member {
            used: i == 0,
            next: free_behind(i, count),
            ..Member::default()
        };
    }
    if count == 1 { None } else { Some(1) }
}
