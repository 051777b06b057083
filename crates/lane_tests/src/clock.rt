ghost use Rattle.std.specs.Prelude.{◌≡◌, ◌<◌, List, [], length};
ghost use Rattle.lane_clock.specs.History.{ClockEvent, drawn};
ghost use Rattle.lane_clock.specs.Seats.{Keeps, Owns, OwnsAll, Remembers, own};

use asio_types::{Code, Event};
use lane_clock::{Change, Found, LaneClock, LaneCopy, LaneSeat, Note};
use std::process::Abort;
use std::test::Fail;
use std::thread::{Threads, join};

fn found(clock: u64, work: u64, stops: u64) -> Found {
    Found { clock, work, stops }
}

// Closes a clock. It shows how many positions its one history drew.
fn closed(clock: LaneClock, seat: LaneSeat) -> Found
    requires clock { seat.clock ≡ clock }
    requires all { OwnsAll seat }
    ensures { (es : List ClockEvent) × (drawn es ≡ result.clock) }
{
    clock.close(seat)
}

// Meets two copies, and still knows what the first told.
fn meet_two(clock: &LaneClock, seat: &mut LaneSeat, first: LaneCopy, second: LaneCopy)
    requires seat { seat.old.clock ≡ clock.now }
    requires copies { (first.clock ≡ clock.now) × (second.clock ≡ clock.now) }
    ensures clock { seat.new.clock ≡ clock.now }
    ensures remembers { Remembers first seat.new }
{
    clock.meet(seat, first);
    clock.meet(seat, second);
}

// Joins all seats into the first, and closes.
fn gathered(
    clock: LaneClock,
    mut first: LaneSeat,
    second: LaneSeat,
    third: LaneSeat,
    fourth: LaneSeat,
) -> Found
    requires seats { clock.plan.seats ≡ 4 }
    requires one { (first.clock ≡ clock) × Owns first 0 }
    requires two { (second.clock ≡ clock) × Owns second 1 }
    requires three { (third.clock ≡ clock) × Owns third 2 }
    requires four { (fourth.clock ≡ clock) × Owns fourth 3 }
{
    clock.join(&mut first, second);
    clock.join(&mut first, third);
    clock.join(&mut first, fourth);
    closed(clock, first)
}

#[test]
#[tactic(auto, using(lane_clock::proofs::SeatLemmas::new_own, lane_clock::proofs::CountLemmas::counted_push))]
fn operation_changes_hands(rt: HostRuntime) -> Result<(), Fail> {
    let (clock, mut seats) = LaneClock::make(rt.alloc(), &[2, 1], 1, 0)?;
    let mut first = seats.next().expect(&rt, "the seat of lane 0");
    let mut second = seats.next().expect(&rt, "the seat of lane 1");
    let worker = seats.next().expect(&rt, "the worker's seat");
    let opener = seats.next().expect(&rt, "the opener's seat");
    assert!(rt; seats.next().is_none());
    let note = Note {
        op: 1,
        code: Code::Ok,
        size: 0,
    };
    let call = clock.draw(&mut first, Change::Up, Event::Call { act: 1 });
    let place = clock.place_in(&mut first, 1).expect(&rt, "a free cell");
    clock.put_cell(&mut first, 1, place, note);
    let back = clock.draw(&mut first, Change::Same, Event::Back { act: 1 });
    let seen = clock.look(&mut second, 1, 0);
    let before = clock.load(&mut second);
    let end = clock.draw(&mut second, Change::Down, Event::End { op: 1, mark: 9 });
    let after = clock.load(&mut second);
    let beyond = clock.place_in(&mut first, 1);
    let empty = clock.look(&mut first, 0, 1);
    let last = gathered(clock, first, second, worker, opener);
    assert!(rt; call == found(0, 0, 0) && place == 0 && back == found(1, 1, 0));
    assert!(rt; seen == Some(note) && before == found(2, 1, 0) && end == found(2, 1, 0));
    assert!(rt; after == found(3, 0, 0) && beyond.is_none() && empty.is_none());
    assert!(rt; last == found(3, 0, 0));
    Ok(())
}

#[test]
#[tactic(auto, using(lane_clock::proofs::SeatLemmas::new_own, lane_clock::proofs::CountLemmas::counted_push))]
fn stop_and_release(rt: HostRuntime) -> Result<(), Fail> {
    let (clock, mut seats) = LaneClock::make(rt.alloc(), &[1, 1], 1, 2)?;
    let mut first = seats.next().expect(&rt, "the seat of lane 0");
    let mut second = seats.next().expect(&rt, "the seat of lane 1");
    let stop = clock.draw(&mut first, Change::Stop, Event::Stop { act: None });
    let seen = clock.load(&mut second);
    let release = clock.draw(&mut second, Change::DownTwo, Event::Take { act: 3 });
    let last = clock.load(&mut second);
    assert!(rt; stop == found(0, 2, 0) && seen == found(1, 2, 1));
    assert!(rt; release == found(1, 2, 1) && last == found(2, 0, 1));
    Ok(())
}

#[test]
#[tactic(auto, using(lane_clock::proofs::SeatLemmas::new_own, lane_clock::proofs::CountLemmas::counted_push))]
fn copy_tells_another_seat(rt: HostRuntime) -> Result<(), Fail> {
    let (clock, mut seats) = LaneClock::make(rt.alloc(), &[1], 1, 3)?;
    let mut lane = seats.next().expect(&rt, "the lane's seat");
    let mut worker = seats.next().expect(&rt, "the worker's seat");
    let drawn = clock.draw(&mut lane, Change::Down, Event::End { op: 1, mark: 9 });
    let early = clock.split(&mut lane);
    let late = clock.split(&mut lane);
    meet_two(&clock, &mut worker, late, early);
    let seen = clock.load(&mut worker);
    assert!(rt; drawn == found(0, 3, 0) && seen == found(1, 2, 0));
    Ok(())
}

// What one thread did.
#[derive(Drop)]
struct Report {
    seat: LaneSeat,
    call: u64,
    back: u64,
    // the place drawn, where the note put there was seen
    seen: Option<u32>,
}

#[tactic(auto, using(lane_clock::proofs::CountLemmas::counted_push))]
fn play(clock: &LaneClock, mut seat: LaneSeat) -> Report
    requires clock { seat.clock ≡ clock.now }
    requires lane { 0 < length clock.now.plan.cells }
    requires new { own seat ≡ [] }
    ensures clock { result.seat.clock ≡ clock.now }
    ensures keeps { Keeps seat result.seat }
{
    let call = clock
        .draw(&mut seat, Change::Up, Event::Call { act: 7 })
        .clock;
    let Some(place) = clock.place_in(&mut seat, 0) else {
        return Report {
            seat,
            call,
            back: call,
            seen: None,
        };
    };
    let note = Note {
        op: 7,
        code: Code::Eof,
        size: 9,
    };
    clock.put_cell(&mut seat, 0, place, note);
    let back = clock
        .draw(&mut seat, Change::Same, Event::Back { act: 7 })
        .clock;
    let seen = clock.look(&mut seat, 0, place);
    let seen = if seen == Some(note) {
        Some(place)
    } else {
        None
    };
    Report {
        seat,
        call,
        back,
        seen,
    }
}

fn play_two<R: Threads + Sync>(
    rt: &R,
    clock: &LaneClock,
    one: LaneSeat,
    two: LaneSeat,
) -> (Report, Report)
    requires one { (one.clock ≡ clock.now) × (own one ≡ []) }
    requires two { (two.clock ≡ clock.now) × (own two ≡ []) }
    requires lane { 0 < length clock.now.plan.cells }
    ensures clock { (result.0.seat.clock ≡ clock.now) × (result.1.seat.clock ≡ clock.now) }
    ensures keeps { Keeps one result.0.seat × Keeps two result.1.seat }
{
    join(
        rt,
        || -> Report
            requires { (one.clock ≡ clock.now) × (0 < length clock.now.plan.cells)
                × (own one ≡ []) }
            ensures { (result.seat.clock ≡ clock.entry.now) × Keeps one result.seat }
        { play(clock, one) },
        || -> Report
            requires { (two.clock ≡ clock.now) × (0 < length clock.now.plan.cells)
                × (own two ≡ []) }
            ensures { (result.seat.clock ≡ clock.entry.now) × Keeps two result.seat }
        { play(clock, two) },
    )
}

// Whether the positions that were drawn, two by each thread, are the numbers below eight.
fn are_all_below_eight(reports: &[(u64, u64)]) -> bool {
    (0..8u64).all(|k| { reports.iter().any(|report| report.0 == k || report.1 == k) })
}

#[test]
#[tactic(auto, using(lane_clock::proofs::SeatLemmas::new_own))]
fn four_threads_share_a_lane(rt: HostRuntime) -> Result<(), Fail> {
    let (clock, mut seats) = LaneClock::make(rt.alloc(), &[4], 2, 0)?;
    let a = seats.next().expect(&rt, "the lane's seat");
    let b = seats.next().expect(&rt, "the first worker's seat");
    let c = seats.next().expect(&rt, "the second worker's seat");
    let d = seats.next().expect(&rt, "the opener's seat");
    let ((a, b), (c, d)) = join(
        &rt,
        || -> (Report, Report)
            requires { (a.clock ≡ clock) × (own a ≡ []) × (b.clock ≡ clock) × (own b ≡ [])
                × (0 < length clock.plan.cells) }
            ensures { (result.0.seat.clock ≡ clock) × (result.1.seat.clock ≡ clock)
                × Keeps a result.0.seat × Keeps b result.1.seat }
        { play_two(&rt, &clock, a, b) },
        || -> (Report, Report)
            requires { (c.clock ≡ clock) × (own c ≡ []) × (d.clock ≡ clock) × (own d ≡ [])
                × (0 < length clock.plan.cells) }
            ensures { (result.0.seat.clock ≡ clock) × (result.1.seat.clock ≡ clock)
                × Keeps c result.0.seat × Keeps d result.1.seat }
        { play_two(&rt, &clock, c, d) },
    );
    let drawn = [
        (a.call, a.back),
        (b.call, b.back),
        (c.call, c.back),
        (d.call, d.back),
    ];
    let seen = [a.seen, b.seen, c.seen, d.seen];
    let last = gathered(clock, a.seat, b.seat, c.seat, d.seat);
    assert!(rt; last == found(8, 4, 0) && are_all_below_eight(&drawn));
    assert!(rt; (0..4u32).all(|place| seen.iter().any(|one| *one == Some(place))));
    Ok(())
}
