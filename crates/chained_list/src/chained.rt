use crate::member::Member;
use crate::places::Places;
use order_list::refusal::ListRefusal;
use std::marker::PhantomData;

pub mod ordered;

/// An order list in lent member places. The members are linked both ways from the base in place 0, the free places
/// are chained from `free` on, and tags that rise along the list tell which of two members is earlier.
#[derive(Drop)]
pub struct Chained<'a, L> {
    places: Places<'a>,
    labels: PhantomData<L>,
}

/// No list was built: the places as they were, and why.
#[derive(Drop)]
pub struct Unbuilt<'a> {
    pub places: &'a mut [Member],
    pub refusal: ListRefusal,
}
