//! What follows from the rule of a clock, for whoever merges its lists. These functions run
//! nothing.
ghost use Rattle.lane_clock.specs.Laws.{HoldsBetweenSteps, PositionsAreOnce, PlacesKeepOrder, NotesAreOlder, JoinsAreBefore, ChangesStand, WorkAddsUp, EmptyIsUnput, StepsAreMade, ClocksCountDraws, DrawsChangeParts};

/// The rule holds between any two steps on a clock, of the steps made so far.
pub fn rule_holds_between_steps()
    ensures { HoldsBetweenSteps }
{}

/// The positions drawn are the numbers below the clock at the end, each once.
pub fn positions_are_drawn_once()
    ensures { PositionsAreOnce }
{}

/// Places of a lane are drawn in the order of the draws around them.
pub fn places_keep_order()
    ensures { PlacesKeepOrder }
{}

/// A note that is seen was put by a list that had drawn its place, after that list's earlier draws.
pub fn notes_are_older()
    ensures { NotesAreOlder }
{}

/// What a list had drawn when it was joined in is below what is found afterwards.
pub fn joins_are_before()
    ensures { JoinsAreBefore }
{}

/// Each position has one change.
pub fn changes_stand()
    ensures { ChangesStand }
{}

/// What finds the clock n finds the work and the stops that the first n changes make of the guards,
/// as long as these fit their parts of the word.
pub fn work_adds_up()
    ensures { WorkAddsUp }
{}

/// Each step of a list was made at one moment of the one history, and found what the older steps
/// left.
pub fn steps_are_made()
    ensures { StepsAreMade }
{}

/// In a history the clock that a step finds is the number of draws before it.
pub fn clocks_count_draws()
    ensures { ClocksCountDraws }
{}

/// A draw changes the clock, the work and the stops that the next step finds, while each stays
/// within its part of the word.
pub fn draws_change_parts()
    ensures { DrawsChangeParts }
{}

/// A cell that was seen empty hadn't been put by what the looking seat knew.
pub fn empty_is_unput()
    ensures { EmptyIsUnput }
{}
