ghost use Rattle.std.specs.Prelude.{◌≡◌};
ghost use Rattle.table.specs.Records.{content_inside, wrote, number_of_source, source_of, SourceIs};

use crate::sizes::{INPUTS, PLACES};
use code::args::Args;
use code::reader::Reader;
use program::value::{Content, Name};

/// What stands at a place, and its two stamps: the members of the order list at which it starts and ends. The default is what a free
/// place holds.
#[derive(Clone, Copy, Default)]
pub struct Record {
    pub entry: Entry,
    pub start: u16,
    pub end: u16,
}

/// A place is blank, or a record stands there, or one that was dropped.
#[derive(Clone, Copy, Default)]
pub enum Entry {
    #[default]
    Blank,
    /// A NEW: the function, given the arguments, writes the content of its modifiable.
    New {
        function: u8,
        args: Args,
        content: Content,
    },
    /// A GET or CAS: its source held what it took, and its reader went on, up to the write of the destination.
    Read {
        source: Name,
        reader: Reader,
        taken: Content,
        destination: u16,
    },
    /// A record that a settle dropped: content and stamps stay until the settle ends.
    Dropped {
        content: Content,
    },
}

/// The number of a source.
// Sources are numbered as the heads of the readers' rings are: narrow numbers in fixed memory.
fn source_number(name: Name) -> Option<u16>
    ensures { SourceIs (number_of_source name) result }
{
    match name {
        Name::Made(n) if (n as usize) < PLACES => Some(n),
        Name::Input(k) if (k as usize) < INPUTS => Some(PLACES as u16 + k),
        Name::Made(_) | Name::Input(_) => None,
    }
}

impl Entry {
    /// What the modifiable of a record holds.
    pub(crate) fn content(&self) -> Content
        ensures { result ≡ content_inside self.now }
    {
        match self {
            Entry::New { content, .. } => *content,
            Entry::Dropped { content } => *content,
            Entry::Blank | Entry::Read { .. } => Content::Empty,
        }
    }

    /// The entry when its record ends: the modifiable of a NEW is written.
    pub(crate) fn wrote(self, content: Content) -> Entry
        ensures { result ≡ wrote self content }
    {
        match self {
            Entry::New { function, args, .. } => Entry::New {
                function,
                args,
                content,
            },
            Entry::Blank | Entry::Read { .. } | Entry::Dropped { .. } => self,
        }
    }

    /// The number of the source that a record reads.
    pub(crate) fn source(&self) -> Option<u16>
        ensures { SourceIs (source_of self.now) result }
    {
        match self {
            Entry::Read { source, .. } => source_number(*source),
            Entry::Blank | Entry::New { .. } | Entry::Dropped { .. } => None,
        }
    }
}

/// More records than the limit allows.
#[derive(Clone, Copy, PartialEq, Eq, Debug)]
pub struct TooLarge;
