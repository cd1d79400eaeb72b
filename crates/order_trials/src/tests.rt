// Both makes given the same calls, at the smallest and the largest capacities, and the refusals.
use crate::both::Pair;
use chained_list::member::Member;
use chained_list::renumbering::RenumberingList;
use chained_list::tag_range::TagRangeList;
use order_list::list::OrderList;
use order_list::refusal::ListRefusal;
use std::test::Fail;

/// Whether both makes answer alike in as many places.
fn alike_in(left: &mut [Member], right: &mut [Member], calls: usize) -> bool {
    let Ok(mut one) = RenumberingList::new(left) else {
        return false;
    };
    let Ok(mut other) = TagRangeList::new(right) else {
        return false;
    };
    let mut pair = Pair {
        one: &mut one,
        other: &mut other,
    };
    pair.drive(calls)
}

#[test]
fn one_place(rt: HostRuntime) {
    assert!(rt; alike_in(&mut [Member::default(); 1], &mut [Member::default(); 1], 20));
}

#[test]
fn two_places(rt: HostRuntime) {
    assert!(rt;
        alike_in(
            &mut [Member::default(); 2],
            &mut [Member::default(); 2],
            100
        )
    );
}

#[test]
fn seventeen_places(rt: HostRuntime) {
    assert!(rt;
        alike_in(
            &mut [Member::default(); 17],
            &mut [Member::default(); 17],
            1000
        )
    );
}

#[test]
fn most_places(rt: HostRuntime) {
    assert!(rt;
        alike_in(
            &mut [Member::default(); 4096],
            &mut [Member::default(); 4096],
            8000
        )
    );
}

/// The number of a refusal, if there is one.
fn told<T: Drop>(answer: Result<T, ListRefusal>) -> Option<u8> {
    answer.err().map(ListRefusal::number)
}

#[test]
fn refused_calls(rt: HostRuntime) -> Result<(), Fail> {
    let mut places = [Member::default(); 1];
    let Ok(mut list) = TagRangeList::new(&mut places) else {
        return Err(Fail::new("no list was built"));
    };
    assert!(rt; told(list.insert_after(1)) == Some(31));
    assert!(rt; told(list.insert_after(0)) == Some(32));
    assert!(rt; told(list.remove(1)) == Some(31));
    assert!(rt; told(list.remove(0)) == Some(33));
    Ok(())
}

/// The number of the refusal to build a list in the places, if it is refused.
// Tried `map_err` and `told`: a closure that takes the lent places is not covered.
fn told_of(places: &mut [Member]) -> Option<u8> {
    match RenumberingList::new(places) {
        Ok(_) => None,
        Err(unbuilt) => Some(unbuilt.refusal.number()),
    }
}

#[test]
fn refused_places(rt: HostRuntime) {
    let marked = Member {
        used: true,
        next: 3,
        previous: 5,
        tag: 7,
    };
    let mut places = [marked; 4097];
    assert!(rt; told_of(&mut []) == Some(34));
    assert!(rt; told_of(&mut places) == Some(34));
    assert!(rt; places[0].tag == 7);
    assert!(rt; told_of(&mut [Member::default(); 4096]) == None);
}
