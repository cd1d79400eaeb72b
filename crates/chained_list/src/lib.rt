// Two makes of order list in lent member places.
#![tactic(auto)]

pub mod chained;
pub mod labelling;
mod links;
pub mod member;
pub mod places;
pub mod renumbering;
pub mod tag_range;
