ghost use Rattle.std.specs.Prelude.{◌≡◌, ◌≤◌, length};

use crate::readers::Readers;
use crate::record::Record;
use crate::sizes::{INPUTS, PLACES, STAMPS};
use program::value::InputContent;

pub mod inputs;
pub mod places;
pub mod run;
pub mod vacant;

/// The records and the inputs of a sheet, and how they are found.
#[derive(Drop)]
pub struct Table {
    /// What stands at each place.
    records: [Record; PLACES],
    /// What each input holds, and what it held when the sheet was opened.
    // Two arrays, since all inputs are noted and put back at once.
    inputs: [InputContent; INPUTS],
    noted: [InputContent; INPUTS],
    /// The place whose record has a stamp.
    owners: [u16; STAMPS],
    /// The free places, a stack, and how many there are.
    // Nothing is allocated once a program is checked: so a stack in fixed memory, with a narrow length beside it.
    spare: [u16; PLACES],
    spares: u16,
    /// How many records may still be made.
    room: u16,
    /// The reads that stand on each source.
    readers: Readers,
    ghost long: { length records ≡ 1024 },
    ghost wide: { length inputs ≡ 256 },
    ghost kept: { length noted ≡ 256 },
    ghost broad: { length owners ≡ 4096 },
    ghost deep: { length spare ≡ 1024 },
    ghost few: { spares ≤ 1024 },
    ghost enough: { room ≤ spares },
}
