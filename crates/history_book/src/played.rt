ghost use Rattle.std.specs.Prelude.{◌≡◌, ◌+◌, ◌<◌, ◌≤◌, ◌++◌, All, IfOk, length, slice_set};
ghost use Rattle.std.specs.Vec.{vec_capacity, vec_len};
ghost use Rattle.std.specs.VecDeque.{deque_capacity, deque_len};
ghost use Rattle.std.specs.Option.{ForSome};
ghost use Rattle.stream_rules.specs.World.{HasItsStreams, changed_at, next_point, stream_at, times_after};
ghost use Rattle.stream_rules.specs.Stream.{closed_stream};
ghost use Rattle.history_book.specs.Asking.{IsReading, IsWriting, queues_of};
ghost use Rattle.history_rules.specs.Settling.{served_stream};
ghost use Rattle.history_book.specs.Played.{first_played, played_at, played_to_the_end};

use crate::asking::{Asking, Queues};
use crate::settling::serve_stream;
use asio_types::{NoMemory, Point, StreamNo, World};
use std::alloc::Global;
use std::marker::Model;
use stream_rules::{Completion, Pipe, Schedule, mark_last, perform_due, pipes_for};

/// A world that is played: scripted time and, where bytes are told, its streams.
#[derive(Debug, Drop)]
pub(crate) struct PlayedWorld {
    pub(crate) told: bool,
    schedule: Schedule,
    pub(crate) pipes: Vec<Pipe>,
}

impl Model for PlayedWorld {
    ghost use Rattle.history_book.specs.Played.{IsPlayed, Played, played_over};

    ghost Value = { Played };

    ghost view = { λ p. played_over p.told p.schedule p.pipes.items };

    ghost invariant = { λ p. IsPlayed p.told p.schedule p.pipes.items };
}

impl PlayedWorld {
    /// A world at time 0. Takes memory for its lines, and where bytes are told for all that they
    /// bring.
    pub(crate) fn make(alloc: Global, world: &World, told: bool) -> Result<PlayedWorld, NoMemory>
        requires { HasItsStreams world.now }
        ensures { IfOk result (λ played. played ≡ first_played world.now told) }
    {
        let lines = world.lines.as_slice();
        let schedule = Schedule::of(alloc, lines)?;
        if told {
            let mut pipes = pipes_for(alloc, world.streams, lines)?;
            perform_due(&schedule, pipes.as_mut_slice());
            Ok(PlayedWorld {
                told,
                schedule,
                pipes,
            })
        } else {
            let pipes = pipes_for(alloc, world.streams, &[])?;
            Ok(PlayedWorld {
                told,
                schedule,
                pipes,
            })
        }
    }

    /// The time.
    pub(crate) fn now(&self) -> u64
        ensures { result ≡ self.now.now }
    {
        self.schedule.now()
    }

    /// The next point: the least of the limit and of the times to come.
    pub(crate) fn next_point(&self, limit: Option<u64>) -> Point
        ensures { result ≡ next_point limit (times_after self.now.now self.now.lines) }
    {
        self.schedule.next_point(limit)
    }

    /// Moves to the next point, which is this time.
    pub(crate) fn tick(&mut self, limit: Option<u64>, time: u64)
        requires ahead { ForSome limit (λ limit. self.old.now < limit) }
        requires next { next_point limit (times_after self.old.now self.old.lines)
            ≡ Point.Time time }
        ensures { self.new ≡ played_at time self.old }
    {
        self.schedule.advance(limit);
        if self.told {
            perform_due(&self.schedule, self.pipes.as_mut_slice());
        }
    }

    /// No further time point exists.
    pub(crate) fn end(&mut self)
        ensures { self.new ≡ played_to_the_end self.old }
    {
        if self.told {
            mark_last(self.pipes.as_mut_slice());
        }
    }

    /// Drops what is there of a stream, and its room.
    pub(crate) fn close(&mut self, stream: StreamNo)
        ensures { self.new
            ≡ record self.old { streams = changed_at stream closed_stream self.old.streams } }
    {
        let Some(pipe) = self.pipes.get_mut(stream as usize) else {
            return;
        };
        pipe.close();
    }

    /// The stream with this number is served, and what completes is due.
    pub(crate) fn serve(
        &mut self,
        stream: usize,
        asking: &Asking,
        queues: &mut Queues,
        due: &mut Vec<Completion>,
    )
        requires there { stream < length self.old.streams }
        requires reads { All (λ queued. IsReading asking.now.script.now queued.op)
            queues.old.reads.items }
        requires writes { All (λ queued. IsWriting asking.now.script.now queued.op)
            queues.old.writes.items }
        requires room { vec_len due.old + deque_len queues.old.reads + deque_len queues.old.writes
            ≤ vec_capacity due.old }
        ensures stream { self.new
            ≡ record self.old {
              streams =
                  slice_set self.old.streams stream
                  (served_stream (stream_at self.old.streams stream)
                  (queues_of asking.now.script.now queues.old)).stream;
            } }
        ensures completed { due.new.items
            ≡ due.old.items
            ++ (served_stream (stream_at self.old.streams stream)
            (queues_of asking.now.script.now queues.old)).completed }
        ensures staying { queues_of asking.now.script.now queues.new
            ≡ (served_stream (stream_at self.old.streams stream)
            (queues_of asking.now.script.now queues.old)).queues }
        ensures reads { All (λ queued. IsReading asking.now.script.now queued.op)
            queues.new.reads.items }
        ensures writes { All (λ queued. IsWriting asking.now.script.now queued.op)
            queues.new.writes.items }
        ensures each_once { vec_len due.new + deque_len queues.new.reads
            + deque_len queues.new.writes
            ≡ vec_len due.old + deque_len queues.old.reads + deque_len queues.old.writes }
        ensures due_room { vec_capacity due.new ≡ vec_capacity due.old }
        ensures reads_room { deque_capacity queues.new.reads ≡ deque_capacity queues.old.reads }
        ensures writes_room { deque_capacity queues.new.writes ≡ deque_capacity queues.old.writes }
    {
        let pipe = &mut self.pipes[stream];
        serve_stream(asking, queues, pipe, due);
    }
}
