//! Whole events of the opener over the bench: it hears what each lane and worker did, draws the
//! event, and each takes that in (Asio reference, io_context::run, ::poll, ::restart; asio::post).
ghost use Rattle.std.specs.Prelude.{◌≡◌, ℕ, [], IsFalse, IsTrue, Some, length, slice_get, true};
ghost use Rattle.lane_map.specs.LaneNumbers.{cells_of, reactor_lane};
ghost use Rattle.lane_logs.specs.Cuts.{EventsAreCuts, NoneStops};
ghost use Rattle.lane_logs.specs.Knowing.{lists_of};
ghost use Rattle.lane_logs.specs.Stand.{first_stand, is_round_open, wants_restart};
ghost use Rattle.lane_turns.specs.AllMeeting.{HaveMetAfterFault};
ghost use Rattle.lane_turns.specs.Attending.{AreHeard, HasGoneOn, KnowsAllOf};
ghost use Rattle.lane_turns.specs.Benches.{AreInRound, AreLanes, AreStartedAt, AreWorkers, HasHeld, HaveAllMet, ReactorGoesOn, places_of};
ghost use Rattle.lane_turns.specs.Besides.{rests_of};
ghost use Rattle.lane_turns.specs.KeptSteps.{AllRemember};
ghost use Rattle.lane_turns.specs.KnownFaults.{KnowsFault};
ghost use Rattle.lane_turns.specs.OpenerEvents.{HasClosed, HasOpened, HasRestarted, HasWaited};

use crate::attendee::{Attendee, LaneAttendee};
use crate::bench::{attend_all, hear_all, meet_reactor};
use crate::closing::Closing;
use crate::opener::Opener;
use lane_clock::LaneClock;
use lane_logs::LaneSession;
use lane_map::LaneMap;
use session_script::Script;

/// Hears what all workers and lanes did, and last of all the reactor, whose lane takes in what the
/// opener knows: so the opener knows no more of it than it did.
fn hear_bench<N: LaneSession, B: Attendee<N>, W: Attendee<N>>(
    opener: &mut Opener<N>,
    clock: &LaneClock,
    script: &Script,
    lanes: &mut [B],
    workers: &mut [W],
)
    requires clock { clock.now ≡ N.clock }
    requires script { script.now ≡ N.names.script }
    requires lanes { AreLanes B.seat N.names.script lanes.old }
    requires works { ReactorGoesOn B.seat N.names.script lanes.old }
    ensures same { workers.new ≡ workers.old }
    ensures on { HasGoneOn opener.old opener.new }
    ensures lanes { AreLanes B.seat N.names.script lanes.new }
    ensures places { places_of B.place lanes.new ≡ places_of B.place lanes.old }
    ensures lanes_heard { AreHeard B.seat N.names.script opener.new lanes.new (length lanes.new) }
    ensures workers_heard { AreHeard W.seat N.names.script opener.new workers.new
        (length workers.new) }
    ensures started { AreStartedAt N.names.script (lists_of opener.new.pen.seat)
        (places_of B.place lanes.new) }
    ensures works { NoneStops (lists_of opener.new.pen.seat (reactor_lane N.names.script)) }
{
    hear_all(opener, clock, workers);
    hear_all(opener, clock, lanes);
    meet_reactor(opener, clock, script, lanes);
}

/// All lanes and workers take in the opener's event, and where the rounds stand.
fn attend_bench<N: LaneSession, B: Attendee<N>, W: Attendee<N>>(
    opener: &mut Opener<N>,
    clock: &LaneClock,
    script: &Script,
    lanes: &mut [B],
    workers: &mut [W],
)
    requires clock { clock.now ≡ N.clock }
    requires script { script.now ≡ N.names.script }
    requires lanes_heard { AreHeard B.seat N.names.script opener.old lanes.old (length lanes.old) }
    requires workers_heard { AreHeard W.seat N.names.script opener.old workers.old
        (length workers.old) }
    ensures on { HasGoneOn opener.old opener.new }
    ensures met { HaveAllMet B.seat W.seat N.names.script opener.old opener.new lanes.old lanes.new
        workers.old workers.new }
    ensures lane_rounds { AreInRound B.base B.running N.names.script opener.new.stand lanes.new
        (length lanes.new) }
    ensures worker_rounds { AreInRound W.base W.running N.names.script opener.new.stand workers.new
        (length workers.new) }
    ensures rest { rests_of W.rest workers.new ≡ rests_of W.rest workers.old }
{
    attend_all(opener, clock, script, lanes);
    attend_all(opener, clock, script, workers);
}

/// All meet where no event closes the round, since the reactor failed: the opener takes in what each
/// lane and worker knows, and reads the clock word. Each of them then takes that in, as it takes in an event.
pub fn meet_all<N: LaneSession, B: Attendee<N>, W: Attendee<N>>(
    opener: &mut Opener<N>,
    clock: &LaneClock,
    script: &Script,
    lanes: &mut [B],
    workers: &mut [W],
)
    requires clock { clock.now ≡ N.clock }
    requires script { script.now ≡ N.names.script }
    requires lanes { AreLanes B.seat N.names.script lanes.old }
    requires workers { AreWorkers W.seat N.names.script workers.old }
    requires cuts { EventsAreCuts N.names.script (lists_of opener.old.pen.seat) }
    ensures on { HasGoneOn opener.old opener.new }
    ensures cuts { EventsAreCuts N.names.script (lists_of opener.new.pen.seat) }
    ensures known { KnowsAllOf W.seat opener.new workers.old }
    ensures opener_knew { KnowsFault N.names.script opener.old.pen.seat →
        HaveMetAfterFault N.names.script (lists_of opener.new.pen.seat) }
    ensures worker_knew { (k : ℕ) (one : W) → slice_get workers.old k ≡ Some one →
        KnowsFault N.names.script (W.seat one) →
        HaveMetAfterFault N.names.script (lists_of opener.new.pen.seat) }
    ensures remember { AllRemember W.seat workers.old workers.new }
    ensures lanes { AreLanes B.seat N.names.script lanes.new }
    ensures workers { AreWorkers W.seat N.names.script workers.new }
    ensures worker_rounds { AreInRound W.base W.running N.names.script opener.new.stand workers.new
        (length workers.new) }
    ensures rest { rests_of W.rest workers.new ≡ rests_of W.rest workers.old }
{
    hear_all(opener, clock, workers);
    hear_all(opener, clock, lanes);
    opener.is_one();
    opener.read(clock);
    attend_bench(opener, clock, script, lanes, workers);
}

/// Makes the calls of `open`, as the first event: all lanes and workers take it in.
pub fn open_all<N: LaneSession, B: Attendee<N>, W: Attendee<N>>(
    opener: &mut Opener<N>,
    clock: &LaneClock,
    script: &Script,
    map: &LaneMap<'_>,
    lanes: &mut [B],
    workers: &mut [W],
)
    requires clock { clock.now ≡ N.clock }
    requires cells { clock.now.plan.cells ≡ cells_of script.now }
    requires script { script.now ≡ N.names.script }
    requires map { map.now ≡ script.now }
    requires none { opener.old.pen.log ≡ [] }
    requires first { opener.old.stand ≡ first_stand N.names.script }
    requires lanes { AreLanes B.seat N.names.script lanes.old }
    requires workers { AreWorkers W.seat N.names.script workers.old }
    ensures opened { HasHeld (HasOpened N.names.script) opener.old opener.new }
    ensures cuts { EventsAreCuts N.names.script (lists_of opener.new.pen.seat) }
    ensures lanes { AreLanes B.seat N.names.script lanes.new }
    ensures workers { AreWorkers W.seat N.names.script workers.new }
    ensures lane_rounds { AreInRound B.base B.running N.names.script opener.new.stand lanes.new
        (length lanes.new) }
    ensures worker_rounds { AreInRound W.base W.running N.names.script opener.new.stand workers.new
        (length workers.new) }
    ensures rest { rests_of W.rest workers.new ≡ rests_of W.rest workers.old }
{
    hear_all(opener, clock, workers);
    hear_all(opener, clock, lanes);
    opener.is_one();
    opener.opening(clock, script, map);
    attend_bench(opener, clock, script, lanes, workers);
}

/// Restarts the context for the next round (Asio reference, io_context::restart): all lanes and
/// workers take it in, and the stops that it found are those with which lanes may begin something.
pub fn restart_all<N: LaneSession, B: Attendee<N>, W: Attendee<N>>(
    opener: &mut Opener<N>,
    clock: &LaneClock,
    script: &Script,
    lanes: &mut [B],
    workers: &mut [W],
)
    requires clock { clock.now ≡ N.clock }
    requires script { script.now ≡ N.names.script }
    requires opened { opener.old.stand.opening ≡ 0 }
    requires wanted { wants_restart N.names.script opener.old.stand ≡ true }
    requires lanes { AreLanes B.seat N.names.script lanes.old }
    requires workers { AreWorkers W.seat N.names.script workers.old }
    requires works { ReactorGoesOn B.seat N.names.script lanes.old }
    requires cuts { EventsAreCuts N.names.script (lists_of opener.old.pen.seat) }
    ensures restarted { HasHeld HasRestarted opener.old opener.new }
    ensures cuts { EventsAreCuts N.names.script (lists_of opener.new.pen.seat) }
    ensures lanes { AreLanes B.seat N.names.script lanes.new }
    ensures workers { AreWorkers W.seat N.names.script workers.new }
    ensures lane_rounds { AreInRound B.base B.running N.names.script opener.new.stand lanes.new
        (length lanes.new) }
    ensures worker_rounds { AreInRound W.base W.running N.names.script opener.new.stand workers.new
        (length workers.new) }
    ensures rest { rests_of W.rest workers.new ≡ rests_of W.rest workers.old }
{
    hear_bench(opener, clock, script, lanes, workers);
    opener.is_one();
    opener.restart(clock);
    attend_bench(opener, clock, script, lanes, workers);
}

/// Closes a round (Asio reference, io_context::run, ::poll, ::stopped), where a load of the opener
/// bears that out and in a poll round looks at the next cell of each lane: all lanes and workers
/// take it in. Answers whether it did; where it didn't, nothing was drawn, and the caller runs again.
pub fn close_all<N: LaneSession, B: LaneAttendee<N>, W: Attendee<N>>(
    opener: &mut Opener<N>,
    clock: &LaneClock,
    script: &Script,
    map: &LaneMap<'_>,
    closing: Closing,
    lanes: &mut [B],
    workers: &mut [W],
) -> bool
    requires clock { clock.now ≡ N.clock }
    requires cells { clock.now.plan.cells ≡ cells_of script.now }
    requires script { script.now ≡ N.names.script }
    requires map { map.now ≡ script.now }
    requires round { is_round_open N.names.script opener.old.stand ≡ true }
    requires lanes { AreLanes B.seat N.names.script lanes.old }
    requires workers { AreWorkers W.seat N.names.script workers.old }
    requires works { ReactorGoesOn B.seat N.names.script lanes.old }
    requires cuts { EventsAreCuts N.names.script (lists_of opener.old.pen.seat) }
    ensures closed { IsTrue result → HasHeld (HasClosed N.names.script (places_of B.place lanes.old)
        closing) opener.old opener.new }
    ensures waited { IsFalse result →
        HasHeld (HasWaited N.names.script closing) opener.old opener.new }
    ensures cuts { EventsAreCuts N.names.script (lists_of opener.new.pen.seat) }
    ensures lanes { AreLanes B.seat N.names.script lanes.new }
    ensures workers { AreWorkers W.seat N.names.script workers.new }
    ensures lane_rounds { IsTrue result → AreInRound B.base B.running N.names.script
        opener.new.stand lanes.new (length lanes.new) }
    ensures worker_rounds { IsTrue result → AreInRound W.base W.running N.names.script
        opener.new.stand workers.new (length workers.new) }
    ensures rest { rests_of W.rest workers.new ≡ rests_of W.rest workers.old }
    ensures same { IsFalse result → workers.new ≡ workers.old }
    ensures remember { AllRemember W.seat workers.old workers.new }
{
    hear_bench(opener, clock, script, lanes, workers);
    opener.is_one();
    if !opener.close(clock, script, map, lanes, closing) {
        return false;
    }
    attend_bench(opener, clock, script, lanes, workers);
    true
}
