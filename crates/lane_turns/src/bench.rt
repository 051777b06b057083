//! The opener's loops over lanes and workers.
ghost use Rattle.std.specs.Prelude.{◌≡◌, length};
ghost use Rattle.lane_map.specs.LaneNumbers.{reactor_lane};
ghost use Rattle.lane_logs.specs.Cuts.{NoneStops};
ghost use Rattle.lane_logs.specs.Knowing.{lists_of};
ghost use Rattle.lane_turns.specs.Attending.{AreHeard, AreKnown, HasGoneOn, HaveAttended};
ghost use Rattle.lane_turns.specs.Besides.{rests_of};
ghost use Rattle.lane_turns.specs.Benches.{AreInRound, AreLanes, HaveAllStarted, ReactorGoesOn, places_of};

use crate::attendee::Attendee;
use crate::opener::Opener;
use lane_clock::LaneClock;
use lane_logs::LaneSession;
use session_script::Script;

/// Hears what all did.
pub fn hear_all<N: LaneSession, T: Attendee<N>>(
    opener: &mut Opener<N>,
    clock: &LaneClock,
    all: &mut [T],
)
    requires clock { clock.now ≡ N.clock }
    ensures same { all.new ≡ all.old }
    ensures on { HasGoneOn opener.old opener.new }
    ensures heard { AreHeard T.seat N.names.script opener.new all.old (length all.old) }
    ensures known { AreKnown T.seat opener.new all.old (length all.old) }
    ensures started { HaveAllStarted T.seat T.place all.old (length all.old) }
{
    for one in all.iter_mut() {
        one.report(opener, clock);
    }
}

/// All take in the opener's event, and where the rounds stand.
pub fn attend_all<N: LaneSession, T: Attendee<N>>(
    opener: &mut Opener<N>,
    clock: &LaneClock,
    script: &Script,
    all: &mut [T],
)
    requires clock { clock.now ≡ N.clock }
    requires script { script.now ≡ N.names.script }
    requires heard { AreHeard T.seat N.names.script opener.old all.old (length all.old) }
    ensures on { HasGoneOn opener.old opener.new }
    ensures attended { HaveAttended T.seat N.names.script opener.old opener.new all.old all.new
        (length all.old) }
    ensures round { AreInRound T.base T.running N.names.script opener.new.stand all.new
        (length all.old) }
    ensures rest { rests_of T.rest all.new ≡ rests_of T.rest all.old }
{
    for one in all.iter_mut() {
        one.attend(opener, clock, script);
    }
}

/// The reactor's lane takes in what the opener knows, and the opener what that did: so the opener
/// knows all that the reactor did, and no more.
pub fn meet_reactor<N: LaneSession, T: Attendee<N>>(
    opener: &mut Opener<N>,
    clock: &LaneClock,
    script: &Script,
    lanes: &mut [T],
)
    requires clock { clock.now ≡ N.clock }
    requires script { script.now ≡ N.names.script }
    requires lanes { AreLanes T.seat N.names.script lanes.old }
    requires works { ReactorGoesOn T.seat N.names.script lanes.old }
    requires heard { AreHeard T.seat N.names.script opener.old lanes.old (length lanes.old) }
    requires started { HaveAllStarted T.seat T.place lanes.old (length lanes.old) }
    ensures on { HasGoneOn opener.old opener.new }
    ensures lanes { AreLanes T.seat N.names.script lanes.new }
    ensures places { places_of T.place lanes.new ≡ places_of T.place lanes.old }
    ensures heard { AreHeard T.seat N.names.script opener.new lanes.new (length lanes.old) }
    ensures started { HaveAllStarted T.seat T.place lanes.new (length lanes.old) }
    ensures works { NoneStops (lists_of opener.new.pen.seat (reactor_lane N.names.script)) }
{
    opener.is_one();
    let last = lanes.len() - 1;
    lanes[last].attend(opener, clock, script);
}
