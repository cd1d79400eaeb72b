ghost use Rattle.std.specs.Prelude.{ℕ, ◌<◌, List, []};
ghost use Rattle.table.specs.Rings.{Unlinked, Rings, Joins};

use crate::readers::{Links, Readers};
use crate::sizes::PLACES;
use std::array;

impl Readers {
    /// No source has a reader: each node is linked to itself.
    pub(crate) fn new() -> Readers
        ensures { Rings result (λ _. []) }
    {
        Readers {
            nodes: array::from_fn(|node| Links {
                next: node as u16,
                previous: node as u16,
            }),
        }
    }

    /// The place becomes the first reader of the source.
    pub(crate) fn link(&mut self, source: u16, place: u16)
        requires source { source < 1280 }
        requires place { place < 1024 }
        requires unlinked { Unlinked self.old place }
        ensures { Joins self.old self.new source place }
    {
        let head = PLACES + source as usize;
        let first = self.nodes[head].next;
        self.nodes[place as usize] = Links {
            next: first,
            previous: head as u16,
        };
        self.nodes[head].next = place;
        self.nodes[first as usize].previous = place;
    }
}
