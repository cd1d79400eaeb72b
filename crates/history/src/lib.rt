// What the calls of a sheet do, and whole histories of them: an old sheet against a new one. Each law is asked for by the
// contract of a function.
#![tactic(auto)]

ghost use Rattle.history.specs.History.{OldAgainstNew};
ghost use Rattle.history.specs.Answered.{EveryCallIsAnswered, AnswersAreDetermined};
ghost use Rattle.history.specs.Wrong.{AlwaysTooLarge, RepeatsItself, RunsAnew, InventsCounts};
ghost use Rattle.history.specs.Bookings.{BookingsInOrder};
ghost use Rattle.history.specs.Tried.{TriedHolds};

// Whatever has happened to a sheet, each settle leaves it as a new sheet with the same inputs, and settles by turns.
pub fn old_is_as_new()
    ensures { OldAgainstNew }
{}

// Each call has an answer, and what it answers follows from the calls alone, whatever places records take.
pub fn calls_are_answered()
    ensures answered { EveryCallIsAnswered }
    ensures determined { AnswersAreDetermined }
{}

// The law refuses sheets that are wrong.
pub fn wrong_sheets_are_refused()
    ensures always_too_large { AlwaysTooLarge }
    ensures repeats_itself { RepeatsItself }
    ensures runs_anew { RunsAnew }
    ensures invents_counts { InventsCounts }
{}

// The bookings stand in the order of day and input, no two with the same, and are at most 64; and a tried history.
pub fn the_book_is_kept()
    ensures in_order { BookingsInOrder }
    ensures tried { TriedHolds }
{}
