ghost use Rattle.std.specs.Prelude.{◌≡◌};
ghost use Rattle.journal.specs.Journal.{call_in};

// What a line of a journal asks for.
#[derive(Clone, Copy, PartialEq, Eq, Debug)]
pub enum Call {
    // an empty line or a comment: nothing
    Passed,
    // to check the text that follows
    Text,
    // nothing that the journal knows
    Unknown,
}

impl From<&[u8]> for Call {
    ghost from_gives = { λ line call. call ≡ call_in line.now };

    fn from(line: &[u8]) -> Call {
        match line {
            [] | [b'#', ..] => Call::Passed,
            b"text" => Call::Text,
            _ => Call::Unknown,
        }
    }
}
