ghost use Rattle.std.specs.Prelude.{◌≡◌, length};

use crate::sizes::{PLACES, SOURCES};

pub mod methods;

/// As many nodes as there are places and sources.
pub(crate) const NODES: usize = PLACES + SOURCES;

/// The nodes behind and before a node of a ring.
#[derive(Clone, Copy)]
pub struct Links {
    next: u16,
    previous: u16,
}

/// For each source a ring of the places whose reads stand on it, linked both ways. A node below 1024 is a place; node
/// 1024 + s is the head of the ring of source s.
// Nothing is allocated once a program is checked: so rings of narrow numbers in fixed memory.
#[derive(Drop)]
pub struct Readers {
    nodes: [Links; NODES],
    ghost long: { length nodes ≡ 2304 },
}
