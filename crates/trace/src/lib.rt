// The meaning of a sheet: the plain run of a program on its inputs, its listing, and settling by turns. Each law is asked for
// by the contract of a function.
#![tactic(auto)]

ghost use Rattle.trace.specs.Laws.{ShowsThePlainRun, PlainRunStands, TooLargeMeans};
ghost use Rattle.trace.specs.Laws.{OneLineEach, TwoStampsEach, LinesTellEnds};
ghost use Rattle.trace.specs.Laws.{TurnsLeaveARun, ReExecutingIsSettling, ReExecutingEnds, SettlingExists};
ghost use Rattle.trace.specs.Laws.{TurnsCountAlike, CountsOfThePlainRun, KeepsPlaces, UnchangedInputs};
ghost use Rattle.trace.specs.Tried.{TriedSheetsHold};

// A trace that stands on inputs shows the plain run of them, wherever its records stand, and 'too large' is exact.
pub fn plain_run_is_shown()
    ensures shown { ShowsThePlainRun }
    ensures stands { PlainRunStands }
    ensures too_large { TooLargeMeans }
    ensures lines { OneLineEach }
    ensures stamps { TwoStampsEach }
    ensures ends { LinesTellEnds }
{}

// Settling by turns leaves a trace that stands, and its E and M are determined.
pub fn turns_settle()
    ensures leaves { TurnsLeaveARun }
    ensures earliest { ReExecutingIsSettling }
    ensures ends { ReExecutingEnds }
    ensures exists { SettlingExists }
    ensures counts { TurnsCountAlike }
    ensures by_value { CountsOfThePlainRun }
    ensures places { KeepsPlaces }
    ensures unchanged { UnchangedInputs }
{}

// The tried sheets, price times count and list sum, answer as the table says.
pub fn tried_sheets_hold()
    ensures { TriedSheetsHold }
{}
