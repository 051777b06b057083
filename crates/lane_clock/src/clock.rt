ghost use Rattle.std.specs.Prelude.{◌≡◌, true, ◌+◌, ◌<◌, [], ◌∷◌, ◌++◌, length, slice_index, IfOk, IfSome, IfNone, IsTrue, IsFalse};
ghost use Rattle.lane_clock.specs.declared.step.ClockStep.TheVariants.{Draw, Load, Place, Put, Look, Join};
ghost use Rattle.lane_clock.specs.Layout.{layout, most_seats};
ghost use Rattle.lane_clock.specs.Knowledge.{AreTogether, counts, known_at, steps_at};
ghost use Rattle.lane_clock.specs.Seats.{DrawsBeyond, all_left, Keeps, SeatsAgree, IsSourceOf, Remembers, OwnsAll, own, after_step, after_join, copy_seat};
ghost use Rattle.lane_clock.specs.Plays.{join_view};
ghost use Rattle.lane_clock.specs.Steps.{MayDraw, MayPlace, has_drawn, has_put};
ghost use Rattle.lane_clock.specs.ClockWord.{IsParted};
ghost use Rattle.lane_clock.specs.Closing.{Closed};
ghost use Rattle.lane_clock.specs.Chronicle.{first_words};

use crate::found::{Change, Found, amount_of};
use crate::note::Note;
use crate::plan::ClockPlan;
use crate::rule::{
    Copies, Drawing, Draws, DrawsPlaces, Hears, Loads, Looks, Puts, TableSeat, TakesIn, WordTable,
};
use crate::seat::{LaneCopy, LaneSeat, SeatList};
use asio_types::{Event, NoMemory};
use std::alloc::Global;
use std::marker::{Brand, Model};

/// A clock: one word that gives events their positions and counts work and stops, a word of places
/// for each lane, and a word for each cell. Any number of threads steps on it, each with a seat of
/// its own, and none waits.
#[derive(Drop)]
pub struct LaneClock {
    table: WordTable,
    plan: ClockPlan,
}

impl Model for LaneClock {
    ghost use Rattle.lane_clock.specs.Layout.{LiesIn};
    ghost use Rattle.lane_clock.specs.Seats.{ClockId};

    ghost Value = { ClockId };

    ghost view = { λ c. record { table = c.table.shared.table_id; plan = c.plan } };

    ghost invariant = { λ c. LiesIn c.table.shared.key c.plan c.table.shared.table_id.words
        c.table.shared.table_id.slots };
}

// The words at the start.
fn first_words(alloc: Global, plan: &ClockPlan) -> Result<Vec<u64>, NoMemory>
    ensures { IfOk result (λ words. words.items ≡ first_words plan.now) }
{
    let mut words = vec![in alloc; 0u64; plan.words()]?;
    words[0] = (plan.guards() as u64) << 32;
    Ok(words)
}

impl LaneClock {
    /// A clock whose work is `guards`, with so many cells for each lane, and its seats: one for
    /// each lane, then one for each worker, then the opener's. Takes memory for a word of each lane
    /// and of each cell; `NoMemory` where it is refused.
    pub fn make(
        alloc: Global,
        cells: &[u32],
        workers: u32,
        guards: u32,
    ) -> Result<(LaneClock, SeatList), NoMemory>
        requires lanes { 0 < length cells.now }
        requires seats { length cells.now + workers < most_seats }
        requires guards { guards < most_seats }
        ensures plan { IfOk result (λ made. made.0.plan ≡ layout guards cells.now workers) }
        ensures seats { IfOk result (λ made. made.1 ≡ all_left made.0) }
    {
        let seats = cells.len() as u32 + workers + 1;
        let plan = ClockPlan::make(alloc, cells, seats, guards)?;
        let words = first_words(alloc, &plan)?;
        let (table, giver) = WordTable::of_words(alloc, words.as_slice(), &plan)?;
        let list = SeatList::make(alloc, &table, giver, seats)?;
        Ok((LaneClock { table, plan }, list))
    }

    // Draws the position of the event that is named.
    fn draw_named<E: Drawing>(&self, seat: &mut LaneSeat, change: Change, event: Event) -> Found
        requires clock { seat.old.clock ≡ self.now }
        requires room { MayDraw (own seat.old) }
        requires named { event ≡ E.event }
        ensures step { seat.new ≡ after_step seat.old (Draw E.event change result) }
        ensures own { own seat.new ≡ own seat.old ++ Draw E.event change result ∷ [] }
        ensures keeps { Keeps seat.old seat.new }
        ensures parts { IsParted result }
    {
        let word = self
            .table
            .shared
            .fetch_add::<Draws<E>>(&mut seat.seat, 0, amount_of(change));
        Found::of_word(word)
    }

    /// Draws the position of an event, which is the clock found, and makes the change, in one step.
    /// The step says which event it is: what the event tells was had before its position was drawn.
    /// A seat draws at most 2^16 times.
    pub fn draw(&self, seat: &mut LaneSeat, change: Change, event: Event) -> Found
        requires clock { seat.old.clock ≡ self.now }
        requires room { MayDraw (own seat.old) }
        ensures step { seat.new ≡ after_step seat.old (Draw event change result) }
        ensures own { own seat.new ≡ own seat.old ++ Draw event change result ∷ [] }
        ensures keeps { Keeps seat.old seat.new }
        ensures parts { IsParted result }
    {
        self.draw_named::<Brand>(seat, change, event)
    }

    /// What the clock word holds at this step.
    pub fn load(&self, seat: &mut LaneSeat) -> Found
        requires clock { seat.old.clock ≡ self.now }
        ensures step { seat.new ≡ after_step seat.old (Load result) }
        ensures own { own seat.new ≡ own seat.old ++ Load result ∷ [] }
        ensures keeps { Keeps seat.old seat.new }
        ensures parts { IsParted result }
    {
        Found::of_word(self.table.shared.load::<Loads>(&mut seat.seat, 0))
    }

    /// Draws a place of a lane, `None` exactly where it is beyond the lane's cells. A seat draws at
    /// most 2^16 places.
    pub fn place_in(&self, seat: &mut LaneSeat, lane: u32) -> Option<u32>
        requires clock { seat.old.clock ≡ self.now }
        requires lane { lane < length self.now.plan.cells }
        requires room { MayPlace (own seat.old) }
        ensures drawn { IfSome result (λ place. seat.new ≡ after_step seat.old (Place lane place)) }
        ensures own { IfSome result (λ place.
            own seat.new ≡ own seat.old ++ Place lane place ∷ []) }
        ensures drew { IfSome result (λ place. IsTrue (has_drawn lane place (own seat.new))) }
        ensures fresh { IfSome result (λ place. IsFalse (has_put lane place (own seat.new))) }
        ensures within { IfSome result (λ place. place < slice_index self.now.plan.cells lane) }
        ensures keeps { Keeps seat.old seat.new }
        ensures beyond { IfNone result (DrawsBeyond self.now.plan.cells lane seat.old seat.new) }
    {
        let place = self
            .table
            .shared
            .fetch_add::<DrawsPlaces>(&mut seat.seat, 1 + lane as usize, 1);
        if place >= self.plan.cells(lane) as u64 {
            return None;
        }
        Some(place as u32)
    }

    /// Puts a note into the cell at a place that this seat drew and hasn't put.
    pub fn put_cell(&self, seat: &mut LaneSeat, lane: u32, place: u32, note: Note)
        requires clock { seat.old.clock ≡ self.now }
        requires cell { place < slice_index self.now.plan.cells lane }
        requires drawn { IsTrue (has_drawn lane place (own seat.old)) }
        requires fresh { IsFalse (has_put lane place (own seat.old)) }
        requires op { note.op < 65535 }
        ensures step { seat.new ≡ after_step seat.old (Put lane place note) }
        ensures own { own seat.new ≡ own seat.old ++ Put lane place note ∷ [] }
        ensures keeps { Keeps seat.old seat.new }
    {
        self.table.shared.store::<Puts>(
            &mut seat.seat,
            self.plan.cell_word(lane, place),
            note.to_word(),
        );
    }

    /// What the cell at a place holds at this step; `None` exactly where it is empty then.
    pub fn look(&self, seat: &mut LaneSeat, lane: u32, place: u32) -> Option<Note>
        requires clock { seat.old.clock ≡ self.now }
        requires cell { place < slice_index self.now.plan.cells lane }
        ensures step { seat.new ≡ after_step seat.old (Look lane place result) }
        ensures own { own seat.new ≡ own seat.old ++ Look lane place result ∷ [] }
        ensures keeps { Keeps seat.old seat.new }
    {
        let word = self.plan.cell_word(lane, place);
        Note::of_word(self.table.shared.load::<Looks>(&mut seat.seat, word))
    }

    /// A copy of what a seat knows.
    pub fn split(&self, seat: &mut LaneSeat) -> LaneCopy
        requires clock { seat.old.clock ≡ self.now }
        ensures copy { result ≡ copy_seat seat.old }
        ensures same { seat.new ≡ seat.old }
    {
        LaneCopy {
            seat: self.table.shared.split_seat::<Copies>(&mut seat.seat),
        }
    }

    // Takes in what another seat knows. A join tells nothing, so the load of a word that hardly
    // changes follows it.
    fn take_in(&self, seat: &mut TableSeat, other: TableSeat)
        requires same { seat.old.table_id ≡ self.now.table }
        requires there { other.table_id ≡ self.now.table }
        requires empty { other.me.1 ≡ [] }
        requires mine { (known_at seat.old.me.0.known seat.old.me.0.number).mine ≡ true }
        ensures table { seat.new.table_id ≡ seat.old.table_id }
        ensures view { seat.new.me ≡ (join_view seat.old.me.0 other.me.0.known, seat.old.me.1) }
        ensures together { AreTogether seat.old.me.0.known other.me.0.known }
    {
        self.table.shared.join_seat::<TakesIn>(seat, other);
        self.table.shared.load::<Hears>(seat, self.plan.words() - 1);
    }

    /// Takes in what a seat knew when it was copied. What it had drawn then is below what this seat
    /// finds from now on. What the two knew of a number agrees, and of this seat's own numbers the
    /// copy knew no more than this seat.
    pub fn meet(&self, seat: &mut LaneSeat, copy: LaneCopy)
        requires clock { seat.old.clock ≡ self.now }
        requires same { copy.clock ≡ self.now }
        ensures step { seat.new ≡ after_join seat.old copy.known }
        ensures own { own seat.new ≡ own seat.old ++ Join (counts copy.known) ∷ [] }
        ensures keeps { Keeps seat.old seat.new }
        ensures agree { SeatsAgree seat.old copy }
        ensures whole { IsSourceOf seat.old copy }
        ensures remembers { Remembers seat.old seat.new × Remembers copy seat.new }
    {
        self.take_in(&mut seat.seat, copy.seat);
    }

    /// Takes in another seat, whose numbers are this one's from now on. What the two knew of a
    /// number agrees, and of each one's own numbers the other knew no more.
    pub fn join(&self, seat: &mut LaneSeat, other: LaneSeat)
        requires clock { seat.old.clock ≡ self.now }
        requires same { other.clock ≡ self.now }
        ensures step { seat.new ≡ after_join seat.old other.known }
        ensures own { own seat.new ≡ own seat.old ++ Join (counts other.known) ∷ [] }
        ensures keeps { Keeps seat.old seat.new }
        ensures takes { Keeps other seat.new }
        ensures agree { SeatsAgree seat.old other }
        ensures whole { IsSourceOf seat.old other }
        ensures theirs { IsSourceOf other seat.old }
        ensures remembers { Remembers seat.old seat.new × Remembers other seat.new }
    {
        self.take_in(&mut seat.seat, other.seat);
    }

    /// What the clock word holds at the end, when all other seats were joined in. There is one
    /// history of all steps, in which each finds what the older ones left, and the steps under all
    /// numbers are its parts and meet the rule of the clock.
    pub fn close(self, seat: LaneSeat) -> Found
        requires clock { seat.clock ≡ self }
        requires all { OwnsAll seat }
        ensures closed { Closed (λ number. steps_at seat.known number) self.plan result }
    {
        let LaneClock { table, plan: _ } = self;
        let closed = table.close_with(seat.seat);
        let word = closed.word(0);
        closed.free();
        Found::of_word(word)
    }
}
