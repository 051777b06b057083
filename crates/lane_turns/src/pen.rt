ghost use Rattle.std.specs.Prelude.{◌≡◌, ℕ, ◌-◌, ◌<◌, ◌≤◌, [], ◌∷◌, length, slice_index, vec_capacity, vec_len, IfNone, IfSome, IsFalse, IsTrue, None};
ghost use Rattle.asio_types.specs.declared.event.Event.TheVariants as event;
ghost use Rattle.lane_clock.specs.declared.step.ClockStep.TheVariants.{Load, Look, Put};
ghost use Rattle.lane_clock.specs.ClockWord.{IsParted};
ghost use Rattle.lane_clock.specs.Seats.{IsSourceOf, Keeps, copy_seat, own};
ghost use Rattle.lane_clock.specs.Steps.{has_drawn, has_put};
ghost use Rattle.lane_map.specs.LaneNumbers.{cells_of, home_lane};
ghost use Rattle.lane_logs.specs.Labels.{shows, silent};
ghost use Rattle.lane_logs.specs.SeatNumbers.{opener_seat};
ghost use Rattle.lane_turns.specs.Meeting.{PenHasMet};
ghost use Rattle.lane_turns.specs.Pens.{HasAllotted, HasGone, IsNoCall, MayGo};
ghost use Rattle.lane_turns.specs.Telling.{HasPlace, HasPlaceBeyond, HasToldDone};

use asio_types::{ActNo, Event};
use lane_clock::{Change, Found, LaneClock, LaneCopy, LaneSeat, Note};
use lane_logs::LogEntry;
use session_script::Script;
use std::marker::Model;
use strand_core::Answered;

/// A seat and the log of what it draws. Only a draw adds an entry, which has the event that the draw
/// was told.
#[derive(Drop)]
pub struct Pen {
    seat: LaneSeat,
    log: Vec<LogEntry>,
}

impl Model for Pen {
    ghost use Rattle.std.specs.Prelude.{◌-◌, vec_capacity, vec_len};
    ghost use Rattle.lane_turns.specs.Pens.{PenView};

    ghost Value = { PenView };

    ghost view = { λ p.
        record { seat = p.seat; log = p.log.items; room = vec_capacity p.log - vec_len p.log } };
}

impl Pen {
    /// The pen of a seat, whose log has nothing yet.
    pub fn of(seat: LaneSeat, log: Vec<LogEntry>) -> Pen
        requires { log.items ≡ [] }
        ensures { result ≡
            record { seat = seat; log = log.items; room = vec_capacity log - vec_len log } }
    {
        Pen { seat, log }
    }

    /// The entries so far.
    pub fn log(&self) -> &[LogEntry]
        ensures { result.now ≡ self.now.log }
    {
        self.log.as_slice()
    }

    /// The seat and the log, for the end of a session.
    pub fn into_parts(self) -> (LaneSeat, Vec<LogEntry>)
        ensures seat { result.0 ≡ self.seat }
        ensures log { result.1.items ≡ self.log }
    {
        let Pen { seat, log } = self;
        (seat, log)
    }

    /// Draws the position of an event that is no call of an act.
    pub fn draw(&mut self, clock: &LaneClock, change: Change, event: Event) -> Found
        requires clock { self.old.seat.clock ≡ clock.now }
        requires room { MayGo self.old 1 0 }
        requires other { IsNoCall event }
        ensures { HasGone (shows event change result ∷ []) self.old self.new }
    {
        self.enter(clock, change, event)
    }

    /// Draws the position of the call of an act. It takes what the act's handler answered: so no call
    /// of a handler's act is drawn before a handler has returned. The opener alone, who calls the acts
    /// of `open`, draws without.
    pub fn draw_call(
        &mut self,
        clock: &LaneClock,
        script: &Script,
        change: Change,
        act: ActNo,
        answered: Option<&Answered>,
    ) -> Found
        requires clock { self.old.seat.clock ≡ clock.now }
        requires room { MayGo self.old 1 0 }
        requires opener { answered ≡ None → self.old.seat.number ≡ opener_seat script.now }
        ensures { HasGone (shows (event.Call act) change result ∷ []) self.old self.new }
    {
        self.enter(clock, change, Event::Call { act })
    }

    /// Draws the position of an event, which gets an entry in the log.
    fn enter(&mut self, clock: &LaneClock, change: Change, event: Event) -> Found
        requires clock { self.old.seat.clock ≡ clock.now }
        requires room { MayGo self.old 1 0 }
        ensures { HasGone (shows event change result ∷ []) self.old self.new }
    {
        let found = clock.draw(&mut self.seat, change, event);
        self.log.push_reserved(LogEntry {
            position: found.clock,
            event,
        });
        found
    }

    /// Gets a place of a lane for an act, and puts its note there where the lane has a cell at it.
    pub fn allot(&mut self, clock: &LaneClock, script: &Script, lane: u32, note: Note)
        requires clock { self.old.seat.clock ≡ clock.now }
        requires cells { clock.now.plan.cells ≡ cells_of script.now }
        requires lane { lane < length (cells_of script.now) }
        requires op { note.op < 65535 }
        requires room { MayGo self.old 0 1 }
        ensures { HasAllotted script.now lane note self.old self.new }
    {
        if let Some(place) = clock.place_in(&mut self.seat, lane) {
            clock.put_cell(&mut self.seat, lane, place, note);
        }
    }

    /// Looks at the cell at a place of a lane.
    pub fn look(&mut self, clock: &LaneClock, lane: u32, place: u32) -> Option<Note>
        requires clock { self.old.seat.clock ≡ clock.now }
        requires cell { place < slice_index clock.now.plan.cells lane }
        ensures { HasGone (silent (Look lane place result) ∷ []) self.old self.new }
    {
        clock.look(&mut self.seat, lane, place)
    }

    /// Finds the clock, the work and the stops.
    pub fn load(&mut self, clock: &LaneClock) -> Found
        requires clock { self.old.seat.clock ≡ clock.now }
        ensures gone { HasGone (silent (Load result) ∷ []) self.old self.new }
        ensures parts { IsParted result }
    {
        clock.load(&mut self.seat)
    }

    /// Gets a place of a lane for an act: `None` where it is beyond the lane's cells.
    fn place(&mut self, clock: &LaneClock, lane: u32) -> Option<u32>
        requires clock { self.old.seat.clock ≡ clock.now }
        requires lane { lane < length clock.now.plan.cells }
        requires room { MayGo self.old 0 1 }
        ensures within { IfSome result (λ place.
            (act : ℕ) → HasPlace clock.now.plan.cells lane place act self.old self.new) }
        ensures beyond { IfNone result
            ((act : ℕ) → HasPlaceBeyond clock.now.plan.cells lane act self.old self.new) }
    {
        clock.place_in(&mut self.seat, lane)
    }

    /// Puts a note at a place that was got and that has a cell.
    fn put(&mut self, clock: &LaneClock, lane: u32, place: u32, note: Note)
        requires clock { self.old.seat.clock ≡ clock.now }
        requires cell { place < slice_index clock.now.plan.cells lane }
        requires drawn { IsTrue (has_drawn lane place (own self.old.seat)) }
        requires fresh { IsFalse (has_put lane place (own self.old.seat)) }
        requires op { note.op < 65535 }
        ensures { HasGone (silent (Put lane place note) ∷ []) self.old self.new }
    {
        clock.put_cell(&mut self.seat, lane, place, note);
    }

    /// Tells the completion of an operation: it gets a place of its lane, its event is drawn, and
    /// behind that its note is put where the lane has a cell at the place.
    pub fn tell(&mut self, clock: &LaneClock, script: &Script, lane: u32, note: Note)
        requires clock { self.old.seat.clock ≡ clock.now }
        requires cells { clock.now.plan.cells ≡ cells_of script.now }
        requires home { lane ≡ home_lane script.now note.op }
        requires lane { lane < length (cells_of script.now) }
        requires op { note.op < 65535 }
        requires room { MayGo self.old 1 1 }
        ensures { HasToldDone script.now note self.old self.new }
    {
        let event = Event::Done {
            op: note.op,
            code: note.code,
            size: note.size,
        };
        match self.place(clock, lane) {
            Some(place) => {
                self.draw(clock, Change::Same, event);
                self.put(clock, lane, place, note);
            }
            None => {
                self.draw(clock, Change::Same, event);
            }
        }
    }

    /// A copy of what the seat knows.
    pub fn split(&mut self, clock: &LaneClock) -> LaneCopy
        requires clock { self.old.seat.clock ≡ clock.now }
        ensures copy { result ≡ copy_seat self.old.seat }
        ensures same { self.new ≡ self.old }
    {
        clock.split(&mut self.seat)
    }

    /// Takes in what another seat knew when it was copied.
    pub fn meet(&mut self, clock: &LaneClock, copy: LaneCopy)
        requires clock { self.old.seat.clock ≡ clock.now }
        requires same { copy.clock ≡ clock.now }
        ensures { PenHasMet copy self.old self.new }
    {
        clock.meet(&mut self.seat, copy);
    }

    /// Takes in another seat for good.
    pub fn join(&mut self, clock: &LaneClock, other: LaneSeat)
        requires clock { self.old.seat.clock ≡ clock.now }
        requires same { other.clock ≡ clock.now }
        ensures met { PenHasMet other self.old self.new }
        ensures takes { Keeps other self.new.seat }
        ensures theirs { IsSourceOf other self.old.seat }
    {
        clock.join(&mut self.seat, other);
    }
}
