//! The fact that each step on the table keeps, and what each tells its caller.
use crate::plan::ClockPlan;
use crate::step::View;
use atomic_table::{Join, Play, Seat, Split, Table, TableRule};
use std::alloc::Global;
use std::marker::{Brand, PhantomData};

/// The table's words and all that seats know are parts of one history.
pub(crate) struct Chronicle;

impl TableRule<(), View, ClockPlan> for Chronicle {
    ghost use Rattle.lane_clock.specs.Chronicle.{HasOneHistory, giver};

    ghost holds = { λ plan s. HasOneHistory plan s };

    ghost first = { giver };
}

pub(crate) type WordTable = Table<(), View, ClockPlan, Chronicle, Global>;

pub(crate) type TableSeat = Seat<(), View>;

/// Names the event whose position is drawn, for contracts alone.
pub(crate) trait Drawing {
    ghost use Rattle.asio_types.specs.declared.event.Event.{Event};

    ghost event: { Event };
}

impl Drawing for Brand {
    ghost use Rattle.asio_types.specs.declared.event.Event.TheVariants as event;

    ghost event = { event.Last };
}

pub(crate) struct Draws<E: Drawing> {
    of: PhantomData<E>,
}

impl<E: Drawing> Play<(), View> for Draws<E> {
    ghost use Rattle.lane_clock.specs.Plays.{draws};

    ghost then = { draws E.event };
}

pub(crate) struct Loads;

impl Play<(), View> for Loads {
    ghost use Rattle.lane_clock.specs.Plays.{loads};

    ghost then = { loads };
}

pub(crate) struct DrawsPlaces;

impl Play<(), View> for DrawsPlaces {
    ghost use Rattle.lane_clock.specs.Plays.{places};

    ghost then = { places };
}

pub(crate) struct Puts;

impl Play<(), View> for Puts {
    ghost use Rattle.lane_clock.specs.Plays.{puts};

    ghost then = { puts };
}

pub(crate) struct Looks;

impl Play<(), View> for Looks {
    ghost use Rattle.lane_clock.specs.Plays.{looks};

    ghost then = { looks };
}

pub(crate) struct Hears;

impl Play<(), View> for Hears {
    ghost use Rattle.lane_clock.specs.Plays.{hears};

    ghost then = { hears };
}

// A number of the giver's goes to a new seat.
pub(crate) struct GivesNumber;

impl Split<View> for GivesNumber {
    ghost use Rattle.lane_clock.specs.Plays.{giver_after, given};

    ghost left = { giver_after };

    ghost right = { given };
}

pub(crate) struct Copies;

impl Split<View> for Copies {
    ghost use Rattle.lane_clock.specs.Plays.{copy_view};

    ghost left = { λ v. v };

    ghost right = { copy_view };
}

pub(crate) struct TakesIn;

impl Join<View> for TakesIn {
    ghost use Rattle.lane_clock.specs.Plays.{join_view, spent_view};

    ghost both = { λ v w. join_view v w.known };

    ghost spent = { spent_view };
}
