// What a settle answers.
ghost use Rattle.std.specs.Prelude.{◌≡◌};
ghost use Rattle.sheet.specs.Answers.{mark_of};
ghost use Rattle.sheet.specs.declared.settled.NotSettled.TheVariants.{Refused as NotSettledRefused};

use crate::pass::{OpenPass, SettledPass, UnsettledPass};
use crate::refusal::Refused;

/// How a sheet was settled.
#[derive(Clone, Copy, PartialEq, Eq, Debug)]
pub enum Mark {
    /// The records that stood had their turns.
    ByTurns = 1,
    /// Nothing stood, and all was run anew.
    Anew = 2,
}

impl Mark {
    /// The number by which the mark is told.
    // A cast to the discriminant names its enum, so this one has a method of its own, as the refusals have.
    pub fn number(self) -> u8
        ensures { result ≡ mark_of self }
    {
        self as u8
    }
}

/// A sheet that was settled: how, how many reads were re-executed, how many records were made and stand, and its pass.
#[derive(Drop)]
pub struct Settled {
    pub mark: Mark,
    pub reexecuted: u16,
    pub made: u16,
    pub standing: u16,
    pub pass: SettledPass,
}

/// A sheet that was not settled: the call was refused, and the pass is handed back; or the run makes more records than the limit
/// allows, which leaves nothing standing, and an unsettled pass.
pub enum NotSettled {
    Refused(Refused<OpenPass>),
    TooLarge(UnsettledPass),
}

impl From<Refused<OpenPass>> for NotSettled {
    ghost from_gives = { λ refused answer. answer ≡ NotSettledRefused refused };

    fn from(refused: Refused<OpenPass>) -> NotSettled {
        NotSettled::Refused(refused)
    }
}
