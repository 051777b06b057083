ghost use Rattle.std.specs.Prelude.{◌≡◌, ◌≢◌, ℕ, ◌<◌, IfOk, IsTrue, length, false, replicate};
ghost use Rattle.std.specs.Option.{ForSome};
ghost use Rattle.stream_rules.specs.World.{HasItsStreams, next_point};
ghost use Rattle.reactor_trait.specs.Reactor.{state_at, state_closed, state_ready, stream_count, IsMoveWithin};

use crate::opening::open_wires;
use crate::wires::Wires;
use asio_types::{Failed, Moved, NoMemory, Point, SetupFault, StreamNo, World};
use std::alloc::Global;
use std::marker::Model;
use std::net::Net;
use stream_rules::{Pipe, Schedule, mark_last, perform_due, pipes_for};

/// How often a read waits for bytes that are under way, a pause each time.
const MOST_PAUSES: u32 = 100;

/// A world that is played over sockets: the lines make the plan of the far ends, and each call lets
/// them go on with it. Contracts see the state of a reactor that is set up.
#[derive(Drop)]
pub(crate) struct Playing {
    last: bool,
    closed: Vec<bool>,
    schedule: Schedule,
    /// For each stream what its far end has still to write, how much it may read, and what it read.
    pipes: Vec<Pipe>,
    wires: Wires,
}

impl Model for Playing {
    ghost use Rattle.std.specs.Prelude.{true};
    ghost use Rattle.stream_rules.specs.Pipes.{IsPlaying};
    ghost use Rattle.reactor_trait.specs.Reactor.{ReactorState, state_over};

    ghost Value = { ReactorState };

    ghost view = { λ s. state_over true s.closed.items s.last s.schedule };

    ghost invariant = { λ s. IsPlaying s.last s.closed.items s.schedule s.pipes.items };
}

fn none_closed(alloc: Global, streams: u8) -> Result<Vec<bool>, NoMemory>
    ensures { IfOk result (λ closed. closed.items ≡ replicate streams false) }
{
    Ok(vec![in alloc; false; streams as usize]?)
}

/// What is answered where the last point has passed or hasn't: nothing is waited for behind it.
fn at_last(moved: Moved, last: bool) -> Moved
    ensures ends { IsTrue last → result ≢ Moved.NotYet }
    ensures within { (most : ℕ) → IsMoveWithin most moved → IsMoveWithin most result }
{
    match moved {
        Moved::NotYet if last => Moved::End,
        moved => moved,
    }
}

/// The lines of a new world, with those of time 0 performed, and its sockets.
fn set_over(alloc: Global, world: &World, wires: Wires) -> Result<Playing, NoMemory>
    requires { HasItsStreams world.now }
    ensures { IfOk result (λ playing. playing ≡ state_ready world.now) }
{
    let lines = world.lines.as_slice();
    let closed = none_closed(alloc, world.streams)?;
    let schedule = Schedule::of(alloc, lines)?;
    let mut pipes = pipes_for(alloc, world.streams, lines)?;
    perform_due(&schedule, pipes.as_mut_slice());
    Ok(Playing {
        last: false,
        closed,
        schedule,
        pipes,
        wires,
    })
}

impl Playing {
    /// A new world, whose sockets are opened.
    pub(crate) fn set<R: Net>(rt: &R, alloc: Global, world: &World) -> Result<Playing, SetupFault>
        requires { HasItsStreams world.now }
        ensures { IfOk result (λ playing. playing ≡ state_ready world.now) }
    {
        let wires = open_wires(rt, alloc, world.streams)?;
        match set_over(alloc, world, wires) {
            Ok(playing) => Ok(playing),
            Err(NoMemory) => Err(SetupFault::NoMemory),
        }
    }

    /// The far end of a stream goes on with its plan.
    fn pump(&mut self, stream: StreamNo) -> Result<(), Failed>
        requires { stream < stream_count self.old }
        ensures { self.new ≡ self.old }
    {
        let pipe = &mut self.pipes[stream as usize];
        self.wires.pump(stream, pipe)
    }

    /// All far ends go on with their plan.
    pub(crate) fn pump_all(&mut self) -> Result<(), Failed>
        ensures { self.new ≡ self.old }
    {
        for stream in 0..u8::MAX {
            if stream as usize >= self.closed.len() {
                return Ok(());
            }
            self.pump(stream)?;
        }
        Ok(())
    }

    /// Moves time; the far ends do what the lines of it say at later calls.
    pub(crate) fn advance(&mut self, limit: Option<u64>) -> Point
        requires { ForSome limit (λ time. self.old.now < time) }
        ensures answer { result ≡ next_point limit self.old.times }
        ensures state { self.new ≡ state_at result self.old }
    {
        let point = self.schedule.advance(limit);
        match point {
            Point::Time(_) => perform_due(&self.schedule, self.pipes.as_mut_slice()),
            Point::Last => {
                mark_last(self.pipes.as_mut_slice());
                self.last = true;
            }
        }
        point
    }

    /// What a read gives now, and whether it is to be tried again.
    fn try_read(&mut self, stream: StreamNo, buf: &mut [u8]) -> Result<(Moved, bool), Failed>
        requires known { stream < stream_count self.old }
        requires room { 0 < length buf.old }
        ensures state { self.new ≡ self.old }
        ensures within { IfOk result (λ answer. IsMoveWithin (length buf.old) answer.0) }
    {
        self.pump(stream)?;
        self.wires.read(stream, &self.pipes[stream as usize], buf)
    }

    /// Reads; where bytes are under way it pauses and tries again.
    pub(crate) fn read_some(&mut self, stream: StreamNo, buf: &mut [u8]) -> Result<Moved, Failed>
        requires known { stream < stream_count self.old }
        requires room { 0 < length buf.old }
        ensures state { self.new ≡ self.old }
        ensures within { IfOk result (IsMoveWithin (length buf.old)) }
        ensures after_last { IsTrue self.old.last → IfOk result (λ moved. moved ≢ Moved.NotYet) }
    {
        for _ in 0..MOST_PAUSES {
            let (moved, again) = self.try_read(stream, buf)?;
            if !again {
                return Ok(at_last(moved, self.last));
            }
            self.wires.pause()?;
        }
        let (moved, _) = self.try_read(stream, buf)?;
        Ok(at_last(moved, self.last))
    }

    /// What a write gives now.
    fn try_write(&mut self, stream: StreamNo, bytes: &[u8]) -> Result<Moved, Failed>
        requires known { stream < stream_count self.old }
        requires some { 0 < length bytes.now }
        ensures state { self.new ≡ self.old }
        ensures within { IfOk result (IsMoveWithin (length bytes.now)) }
    {
        self.pump(stream)?;
        self.wires.write(stream, bytes)
    }

    /// What a write gives; where nothing is taken the far end reads, and it is tried once more.
    fn try_write_again(&mut self, stream: StreamNo, bytes: &[u8]) -> Result<Moved, Failed>
        requires known { stream < stream_count self.old }
        requires some { 0 < length bytes.now }
        ensures state { self.new ≡ self.old }
        ensures within { IfOk result (IsMoveWithin (length bytes.now)) }
    {
        let moved = self.try_write(stream, bytes)?;
        if moved != Moved::NotYet {
            return Ok(moved);
        }
        self.try_write(stream, bytes)
    }

    /// Writes, and answers as at the last point where it has passed.
    pub(crate) fn write_some(&mut self, stream: StreamNo, bytes: &[u8]) -> Result<Moved, Failed>
        requires known { stream < stream_count self.old }
        requires some { 0 < length bytes.now }
        ensures state { self.new ≡ self.old }
        ensures within { IfOk result (IsMoveWithin (length bytes.now)) }
        ensures after_last { IsTrue self.old.last → IfOk result (λ moved. moved ≢ Moved.NotYet) }
    {
        let moved = self.try_write_again(stream, bytes)?;
        Ok(at_last(moved, self.last))
    }

    pub(crate) fn close(&mut self, stream: StreamNo)
        requires { stream < stream_count self.old }
        ensures { self.new ≡ state_closed stream self.old }
    {
        let pipe = &mut self.pipes[stream as usize];
        pipe.close();
        self.closed[stream as usize] = true;
        self.wires.close(stream);
    }

    /// What the far end of a stream has read; nothing on one that the world hasn't.
    pub(crate) fn received(&self, stream: StreamNo) -> &[u8] {
        match self.pipes.get(stream as usize) {
            Some(pipe) => pipe.outbound.sent(),
            None => &[],
        }
    }
}
