use crate::args::Args;
use crate::reader::Reader;
use crate::running::Waiting;
use program::value::{Content, Name};

/// What a function does next.
#[derive(Clone, Copy)]
pub enum Next {
    /// It writes its modifiable, and is done.
    Writes(Content),
    /// It makes a modifiable that the function writes, and then goes on.
    Makes {
        function: u8,
        args: Args,
        rest: Waiting,
    },
    /// It reads a modifiable, and the reader goes on.
    Reads {
        source: Name,
        reader: Reader,
    },
}
