// Records at their places.
ghost use Rattle.std.specs.Prelude.{◌≡◌, ◌<◌, ◌≤◌};
ghost use Rattle.table.specs.Rings.{Unlinked};
ghost use Rattle.table.specs.Standing.{at, owner, store};
ghost use Rattle.table.specs.Changes.{Takes, Puts, Enters, Owns};

use crate::record::{Record, TooLarge};
use crate::table::Table;
use program::value::{Content, Name};

impl Table {
    /// What a modifiable holds.
    pub(crate) fn content(&self, name: Name) -> Content
        ensures { result ≡ store self.now name }
    {
        match name {
            Name::Input(k) => self
                .inputs
                .get(k as usize)
                .map_or(Content::Empty, |input| Content::from(*input)),
            Name::Made(n) => self
                .records
                .get(n as usize)
                .map_or(Content::Empty, |record| record.entry.content()),
        }
    }

    /// Takes a free place for a record.
    pub(crate) fn take(&mut self) -> Result<u16, TooLarge>
        ensures { Takes self.old self.new result }
    {
        if self.room == 0 {
            return Err(TooLarge);
        }
        self.room -= 1;
        self.spares -= 1;
        Ok(self.spare[self.spares as usize])
    }

    /// What stands at a place; behind the last it is blank.
    // Every place of a name or a read is there; an Option would only move that to each caller.
    pub fn record(&self, place: u16) -> Record
        ensures { result ≡ at self.now place }
    {
        self.records
            .get(place as usize)
            .copied()
            .unwrap_or_default()
    }

    /// The place whose record has a stamp; behind the last it is 0.
    // Every stamp is there; an Option would only move that to each caller.
    pub fn owner(&self, stamp: u16) -> u16
        ensures { result ≡ owner self.now stamp }
    {
        self.owners.get(stamp as usize).copied().unwrap_or(0)
    }

    /// Puts a record at its place.
    // Names and records keep places as plain numbers, so a type of places below 1024 would be unwrapped and wrapped at each use, here,
    // in `enter` and in the rings.
    pub(crate) fn put(&mut self, place: u16, record: Record)
        requires { place < 1024 }
        ensures puts { Puts self.old self.new place «record» }
        ensures readers { self.new.readers ≡ self.old.readers }
    {
        self.records[place as usize] = record;
    }

    /// A record begins at a place; a read joins the readers of its source.
    pub(crate) fn enter(&mut self, place: u16, record: Record)
        requires place { place < 1024 }
        requires unlinked { Unlinked self.old.readers place }
        ensures puts { Puts self.old self.new place «record» }
        ensures enters { Enters self.old self.new place «record» }
    {
        self.put(place, record);
        if let Some(source) = record.entry.source() {
            self.readers.link(source, place);
        }
    }

    /// The stamp is one of the record at the place.
    pub(crate) fn own(&mut self, stamp: u16, place: u16)
        requires { stamp < 4096 }
        ensures { Owns self.old self.new stamp place }
    {
        self.owners[stamp as usize] = place;
    }
}
