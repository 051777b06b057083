ghost use Rattle.std.specs.Prelude.{◌≡◌, ◌≢◌, ◌<◌, IfOk, IsTrue, length, take, false, replicate};
ghost use Rattle.std.specs.Option.{ForSome};
ghost use Rattle.stream_rules.specs.World.{HasItsStreams, next_point, stream_at};
ghost use Rattle.stream_rules.specs.Moving.{moved_count, read_answer, write_answer};
ghost use Rattle.stream_rules.specs.Serving.{Some_of, after_reading, after_writing};
ghost use Rattle.reactor_trait.specs.Reactor.{idle_state, outside_ready, state_ready, outside_at, outside_closed, state_at, state_closed, state_refused, stream_count, with_stream};
ghost use Rattle.reactor_script.specs.Scene.{idle_outside};

use asio_types::{Moved, NoMemory, Point, StreamNo, World};
use std::alloc::Global;
use std::marker::Model;
use stream_rules::{Pipe, Schedule, mark_last, perform_due, pipes_for};

/// A world that is played: a reactor that tells its bytes and never fails.
#[derive(Drop)]
pub(crate) struct Stage {
    up: bool,
    last: bool,
    closed: Vec<bool>,
    schedule: Schedule,
    pipes: Vec<Pipe>,
}

impl Model for Stage {
    ghost use Rattle.stream_rules.specs.Pipes.{IsPlaying};
    ghost use Rattle.reactor_trait.specs.Reactor.{state_over};
    ghost use Rattle.reactor_script.specs.Scene.{Scene, outside_over};

    ghost Value = { Scene };

    ghost view = { λ s.
        record {
          state = state_over s.up s.closed.items s.last s.schedule;
          outside = outside_over s.schedule s.pipes.items;
        } };

    ghost invariant = { λ s. IsPlaying s.last s.closed.items s.schedule s.pipes.items };
}

fn all_open(alloc: Global, streams: u8) -> Result<Vec<bool>, NoMemory>
    ensures { IfOk result (λ closed. closed.items ≡ replicate streams false) }
{
    Ok(vec![in alloc; false; streams as usize]?)
}

impl Stage {
    /// No world. Takes no memory.
    pub(crate) fn empty(alloc: Global) -> Stage
        ensures state { result.state ≡ idle_state }
        ensures outside { result.outside ≡ idle_outside }
    {
        Stage {
            up: false,
            last: false,
            closed: Vec::new(alloc),
            schedule: Schedule::empty(alloc),
            pipes: Vec::new(alloc),
        }
    }

    /// A new world, with the lines of time 0 performed.
    pub(crate) fn set(alloc: Global, world: &World) -> Result<Stage, NoMemory>
        requires { HasItsStreams world.now }
        ensures state { IfOk result (λ stage. stage.state ≡ state_ready world.now) }
        ensures outside { IfOk result (λ stage. stage.outside ≡ outside_ready world.now) }
    {
        let lines = world.lines.as_slice();
        let closed = all_open(alloc, world.streams)?;
        let schedule = Schedule::of(alloc, lines)?;
        let mut pipes = pipes_for(alloc, world.streams, lines)?;
        perform_due(&schedule, pipes.as_mut_slice());
        Ok(Stage {
            up: true,
            last: false,
            closed,
            schedule,
            pipes,
        })
    }

    /// The world isn't set up.
    pub(crate) fn take_down(&mut self)
        ensures state { self.new.state ≡ state_refused self.old.state }
        ensures outside { self.new.outside ≡ self.old.outside }
    {
        self.up = false;
    }

    pub(crate) fn advance(&mut self, limit: Option<u64>) -> Point
        requires { ForSome limit (λ time. self.old.state.now < time) }
        ensures answer { result ≡ next_point limit self.old.state.times }
        ensures state { self.new.state ≡ state_at result self.old.state }
        ensures outside { self.new.outside ≡ outside_at result self.old.outside }
    {
        let point = self.schedule.advance(limit);
        match point {
            Point::Time(_) => perform_due(&self.schedule, self.pipes.as_mut_slice()),
            Point::Last => {
                mark_last(self.pipes.as_mut_slice());
                self.last = true;
            }
        }
        point
    }

    pub(crate) fn read_some(&mut self, stream: StreamNo, buf: &mut [u8]) -> Moved
        requires known { stream < stream_count self.old.state }
        requires room { 0 < length buf.old }
        ensures answer { result
            ≡ read_answer (length buf.old) (stream_at self.old.outside.streams stream) }
        ensures after_last { IsTrue self.old.state.last → result ≢ Moved.NotYet }
        ensures bytes { take (moved_count result) buf.new
            ≡ take (moved_count result) (stream_at self.old.outside.streams stream).arrived }
        ensures state { self.new.state ≡ self.old.state }
        ensures outside { self.new.outside
            ≡ with_stream stream (after_reading (moved_count result)) self.old.outside }
    {
        let pipe = &mut self.pipes[stream as usize];
        pipe.read(buf)
    }

    pub(crate) fn write_some(&mut self, stream: StreamNo, bytes: &[u8]) -> Moved
        requires known { stream < stream_count self.old.state }
        requires some { 0 < length bytes.now }
        ensures answer { result
            ≡ write_answer bytes.now (stream_at self.old.outside.streams stream) }
        ensures after_last { IsTrue self.old.state.last → result ≢ Moved.NotYet }
        ensures state { self.new.state ≡ self.old.state }
        ensures outside { self.new.outside
            ≡ with_stream stream (after_writing (Some_of bytes.now) 0 (moved_count result))
            self.old.outside }
    {
        let pipe = &mut self.pipes[stream as usize];
        pipe.write(bytes)
    }

    pub(crate) fn close(&mut self, stream: StreamNo)
        requires { stream < stream_count self.old.state }
        ensures state { self.new.state ≡ state_closed stream self.old.state }
        ensures outside { self.new.outside ≡ outside_closed stream self.old.outside }
    {
        let pipe = &mut self.pipes[stream as usize];
        pipe.close();
        self.closed[stream as usize] = true;
    }

    /// What was sent on a stream; on one that the world hasn't, nothing.
    pub(crate) fn sent(&self, stream: StreamNo) -> &[u8]
        ensures { result.now ≡ (stream_at self.now.outside.streams stream).sent }
    {
        match self.pipes.get(stream as usize) {
            Some(pipe) => pipe.outbound.sent(),
            None => &[],
        }
    }
}
